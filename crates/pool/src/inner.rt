//! Reading and writing single nodes, and the free chain: for the crates that walk trees, not for makers.
//! Every function here is total: what good order forbids is answered, never assumed away.
//!
//! Nodes and account are two parameters, here and in the crates above: it is the project's rule that maps are worked on by
//! functions over the lent slice. A struct that held it would owe in each function that it still holds the same one.

ghost use Rattle.std.specs.Prelude.{◌≡◌, ℕ, ◌+◌, ◌<◌, ◌≤◌, ◌⊎◌, List, ◌∷◌, length, MatchResult, ◌≢◌, slice_set};
ghost use Rattle.pool.specs.Slice.{At, Chain};
ghost use Rattle.pool.specs.Nodes.{Released, Took};
ghost use Rattle.pool.specs.declared.node.Node.TheVariants.{Free};

use crate::account::Account;
use crate::node::Node;
use crate::outoforder::OutOfOrder;
pub use crate::stack::Stack;

/// The node at an index.
pub fn node_at<K: Copy, V: Copy>(nodes: &[Node<K, V>], at: u16) -> Result<Node<K, V>, OutOfOrder>
    ensures node_or_past_end { MatchResult result (λ x. At nodes.now at x) (λ _. length nodes.now ≤ at) }
{
    nodes.get(at as usize).copied().ok_or(OutOfOrder)
}

/// Writes a node; past the end it writes nothing.
pub fn write_node<K: Copy, V: Copy>(nodes: &mut [Node<K, V>], at: u16, node: Node<K, V>)
    ensures written { at < length nodes.old → nodes.new ≡ slice_set nodes.old at node }
    ensures past_end_unchanged { length nodes.old ≤ at → nodes.new ≡ nodes.old }
{
    let i = at as usize;
    // Not by `get_mut`, after which a proof knows of the slice its length alone.
    if i < nodes.len() {
        nodes[i] = node;
    }
}

/// Takes the first node of the free chain: its index, and the account without it.
pub fn take_free<K: Copy, V: Copy>(
    nodes: &[Node<K, V>],
    account: Account,
) -> Result<(u16, Account), OutOfOrder>
    ensures first_of_chain { MatchResult result (λ t. Took nodes.now account t.0 t.1) (λ _. ((i : ℕ) (is : List ℕ) → Chain nodes.now account.head (i ∷ is) → length (i ∷ is) ≢ account.free)) }
{
    let free = account.free.checked_sub(1).ok_or(OutOfOrder)?;
    let at = account.head;
    let Node::Free { next } = node_at(nodes, at)? else {
        return Err(OutOfOrder);
    };
    // No `..account`: its ghost field wants every field written.
    let after = Account {
        capacity: account.capacity,
        head: next,
        free,
    };
    Ok((at, after))
}

/// Gives a node back to the free chain.
pub fn release<K: Copy, V: Copy>(
    nodes: &mut [Node<K, V>],
    account: Account,
    at: u16,
) -> Result<Account, OutOfOrder>
    ensures first_of_chain_now { MatchResult result (λ a. Released nodes.old nodes.new account at a) (λ _. ((length nodes.old ≤ at) ⊎ (account.capacity ≤ account.free)) × (nodes.new ≡ nodes.old)) }
{
    if at as usize >= nodes.len() || account.free >= account.capacity {
        return Err(OutOfOrder);
    }
    write_node(nodes, at, Node::Free { next: account.head });
    Ok(Account {
        capacity: account.capacity,
        head: at,
        free: account.free + 1,
    })
}
