ghost use Rattle.std.specs.Prelude.{ℕ, ◌+◌, List, Some, None, Option, MatchResult};
ghost use Rattle.trees.specs.Tree.{Tree, uses, uses_if_any, times};
ghost use Rattle.pool.specs.Walks.{Rooted, Beside, Left};
ghost use Rattle.edits.specs.Clears.{Queued};

use keys::KeyKind;
use pool::inner::{Stack, node_at, release};
use pool::{Account, Node, OutOfOrder};

// What is given back after a node: side 0 of a branch, while side 1 waits; after a leaf what waits on top.
fn after_node<K: Copy, V: Copy>(
    node: Node<K, V>,
    waiting: &mut Stack<u16>,
) -> Result<Option<u16>, OutOfOrder>
    ensures sides_before_others { Queued node waiting.old waiting.new result }
{
    match node {
        Node::Free { .. } => Err(OutOfOrder),
        Node::Leaf { .. } => Ok(waiting.pop()),
        Node::Branch { zero, one, .. } => {
            waiting.push(one)?;
            Ok(Some(zero))
        }
    }
}

// Gives every node of the tree at `top` back. Each turn makes one node free, and no pool has more free nodes than it has
// nodes, so that it ends on any slice.
fn release_tree<K: KeyKind, V: Copy>(
    nodes: &mut [Node<K, V>],
    mut account: Account,
    top: u16,
) -> Result<Account, OutOfOrder>
    ensures gives_all_back { (t : Tree K V) (chain : List ℕ) → Rooted (K.KeyKind) nodes.old (Some top) (Some t) → Beside nodes.old account (Some t) chain → MatchResult result (λ a. Left (K.KeyKind) nodes.old nodes.new (λ _. None) (λ j. uses j t + times j chain) account a None) (λ _. ⊥) }
{
    let mut at = top;
    let mut waiting = Stack::new(top);
    loop {
        let node = node_at(nodes, at)?;
        account = release(nodes, account, at)?;
        match after_node(node, &mut waiting)? {
            None => return Ok(account),
            Some(next) => at = next,
        }
    }
}

/// Gives every node of the tree at `root` back.
pub fn clear<K: KeyKind, V: Copy>(
    nodes: &mut [Node<K, V>],
    account: Account,
    root: Option<u16>,
) -> Result<Account, OutOfOrder>
    ensures gives_all_back { (map : Option (Tree K V)) (chain : List ℕ) → Rooted (K.KeyKind) nodes.old root map → Beside nodes.old account map chain → MatchResult result (λ a. Left (K.KeyKind) nodes.old nodes.new (λ _. None) (λ j. uses_if_any j map + times j chain) account a None) (λ _. ⊥) }
{
    match root {
        None => Ok(account),
        Some(top) => release_tree(nodes, account, top),
    }
}
