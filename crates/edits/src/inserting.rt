// A record told at a key of one map. The two are two parameters: callers have them apart, the walk wants the key alone, and
// a leaf, where they end, is itself what would hold both.
ghost use Rattle.std.specs.Prelude.{◌≡◌, ◌<◌, ◌≤◌, length, Some, None, Err, Option, MatchResult, slice_set};
ghost use Rattle.pool.specs.declared.node.Node.TheVariants.{Leaf};
ghost use Rattle.edits.specs.Inserted.{Inserts, InsertsAt};
ghost use Rattle.edits.specs.Writes.{Forked, NotTwoFree, TookTwo};
ghost use Rattle.edits.specs.declared.fault.InsertFault.TheVariants.{TooFewNodes};
ghost use Rattle.edits.specs.declared.seat.Seat.TheVariants.{Open};

use crate::fault::InsertFault;
use crate::seat::{Gap, Seat, seek};
use keys::KeyKind;
use pool::inner::{node_at, take_free, write_node};
use pool::{Account, Node, OutOfOrder};
use records::Joining;
use walks::inner::{Sides, branch_over};

// an empty map takes a leaf
const NODES_OF_A_FIRST_KEY: u16 = 1;

// a map that has keys takes a leaf and a branch over it
const NODES_OF_A_FURTHER_KEY: u16 = 2;

/// Writes to a leaf the record that it holds, joined with what is told; past the end it writes nothing.
pub fn join_leaf<K: Copy, V: Joining>(nodes: &mut [Node<K, V>], at: u16, own: K, held: V, told: V)
    ensures joined_there { at < length nodes.old → nodes.new ≡ slice_set nodes.old at (Leaf own (V.Joining.joined held told)) }
    ensures past_end_unchanged { length nodes.old ≤ at → nodes.new ≡ nodes.old }
{
    write_node(
        nodes,
        at,
        Node::Leaf {
            key: own,
            record: held.join(told),
        },
    );
}

// Writes a fork: what stood at the gap's node moves to the far side, and the near side, which the key's bit names, is
// a new leaf.
fn write_fork<K: KeyKind, V: Copy>(
    nodes: &mut [Node<K, V>],
    gap: Gap,
    old: Node<K, V>,
    sides: Sides,
    key: K,
    told: V,
)
    ensures forked_there { Forked (K.KeyKind) key told nodes.old nodes.new gap old sides }
{
    let Gap { at, place } = gap;
    write_node(nodes, sides.far, old);
    write_node(nodes, sides.near, Node::Leaf { key, record: told });
    write_node(nodes, at, branch_over(place, key, key.bit_at(place), sides));
}

// Takes a node of the free chain for each side of a fork, and is refused only where there are not two.
fn take_sides<K: Copy, V: Copy>(
    nodes: &[Node<K, V>],
    account: Account,
) -> Result<(Sides, Account), OutOfOrder>
    ensures first_two_of_chain { MatchResult result (λ t. TookTwo nodes.now account t.0.far t.0.near t.1) (λ _. NotTwoFree nodes.now account) }
{
    let (far, between) = take_free(nodes, account)?;
    let (near, after) = take_free(nodes, between)?;
    Ok((Sides { near, far }, after))
}

// The first leaf of a map.
fn plant<K: KeyKind, V: Joining>(
    nodes: &mut [Node<K, V>],
    account: Account,
    key: K,
    told: V,
) -> Result<(u16, Account), InsertFault>
    ensures adds_one_update { Inserts (K.KeyKind) V.Joining.joined key told nodes.old nodes.new account None result }
    ensures too_few_changes_nothing { result ≡ Err TooFewNodes → nodes.new ≡ nodes.old }
{
    if account.free < NODES_OF_A_FIRST_KEY {
        return Err(InsertFault::TooFewNodes);
    }
    let (at, after) = take_free(nodes, account)?;
    write_node(nodes, at, Node::Leaf { key, record: told });
    Ok((at, after))
}

// A new leaf in a gap, under a branch there.
fn fork<K: KeyKind, V: Joining>(
    nodes: &mut [Node<K, V>],
    account: Account,
    top: u16,
    gap: Gap,
    key: K,
    told: V,
) -> Result<(u16, Account), InsertFault>
    ensures adds_one_update { InsertsAt (K.KeyKind) V.Joining.joined key told (Open gap) nodes.old nodes.new account (Some top) result }
    ensures too_few_changes_nothing { result ≡ Err TooFewNodes → nodes.new ≡ nodes.old }
{
    if account.free < NODES_OF_A_FURTHER_KEY {
        return Err(InsertFault::TooFewNodes);
    }
    let old = node_at(nodes, gap.at)?;
    let (sides, after) = take_sides(nodes, account)?;
    write_fork(nodes, gap, old, sides, key, told);
    Ok((top, after))
}

// A record told in a map that has a tree.
fn grow<K: KeyKind, V: Joining>(
    nodes: &mut [Node<K, V>],
    account: Account,
    top: u16,
    key: K,
    told: V,
) -> Result<(u16, Account), InsertFault>
    ensures adds_one_update { Inserts (K.KeyKind) V.Joining.joined key told nodes.old nodes.new account (Some top) result }
    ensures too_few_changes_nothing { result ≡ Err TooFewNodes → nodes.new ≡ nodes.old }
{
    match seek(nodes, top, key)? {
        Seat::Taken { at, own, held } => {
            join_leaf(nodes, at, own, held, told);
            Ok((top, account))
        }
        Seat::Open(gap) => fork(nodes, account, top, gap, key, told),
    }
}

/// Puts a record at a key of the map at `root`: joined to the record that is there, or in a new leaf.
/// Answers where the tree begins now, and the account.
// A pair, which the caller takes apart at once; names for its parts would only stand there twice.
pub fn insert<K: KeyKind, V: Joining>(
    nodes: &mut [Node<K, V>],
    account: Account,
    root: Option<u16>,
    key: K,
    told: V,
) -> Result<(u16, Account), InsertFault>
    ensures adds_one_update { Inserts (K.KeyKind) V.Joining.joined key told nodes.old nodes.new account root result }
    ensures too_few_changes_nothing { result ≡ Err TooFewNodes → nodes.new ≡ nodes.old }
{
    match root {
        None => plant(nodes, account, key, told),
        Some(top) => grow(nodes, account, top, key, told),
    }
}
