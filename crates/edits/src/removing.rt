// A key taken from one map.
ghost use Rattle.std.specs.Prelude.{◌<◌, Some, None, Option, MatchResult};
ghost use Rattle.edits.specs.Removed.{Removes, TakesByOwnWay};
ghost use Rattle.edits.specs.Writes.{ClosedUp, NoRoomForTwo};

use crate::removal::Removal;
use keys::{KeyKind, same_key};
use pool::inner::{node_at, release, write_node};
use pool::{Account, Node, OutOfOrder};
use walks::inner::{Parent, Reach, leaf_towards};

// Closes a branch up over a leaf: what stands at the leaf's sibling takes the branch's node, and the nodes of the
// sibling and of the leaf are given back.
fn close_up<K: Copy, V: Copy>(
    nodes: &mut [Node<K, V>],
    account: Account,
    parent: Parent,
    content: Node<K, V>,
    leaf: u16,
) -> Result<Account, OutOfOrder>
    ensures closed_up { MatchResult result (λ a. ClosedUp nodes.old nodes.new account parent content leaf a) (λ _. NoRoomForTwo nodes.old account parent leaf) }
{
    write_node(nodes, parent.at, content);
    let between = release(nodes, account, parent.sibling)?;
    release(nodes, between, leaf)
}

// A key taken from a map that has a tree.
fn shrink<K: KeyKind, V: Copy>(
    nodes: &mut [Node<K, V>],
    account: Account,
    top: u16,
    key: K,
) -> Result<Removal<V>, OutOfOrder>
    ensures drops_one_key { Removes (K.KeyKind) key nodes.old nodes.new account (Some top) result }
    ensures by_own_places { TakesByOwnWay (K.KeyKind) key nodes.old (Some top) result }
{
    let landing = leaf_towards(nodes, top, Reach::OwnPlaces, key)?;
    if !same_key(landing.own, key) {
        return Ok(Removal {
            held: None,
            root: Some(top),
            account,
        });
    }
    let (root, after) = match landing.parent {
        None => (None, release(nodes, account, landing.at)?),
        Some(parent) => {
            let content = node_at(nodes, parent.sibling)?;
            let after = close_up(nodes, account, parent, content, landing.at)?;
            (Some(top), after)
        }
    };
    Ok(Removal {
        held: Some(landing.held),
        root,
        account: after,
    })
}

/// Takes a key from the map at `root`, and answers the record that it had. The tree's first node stays where it
/// is, unless the last key goes.
pub fn remove<K: KeyKind, V: Copy>(
    nodes: &mut [Node<K, V>],
    account: Account,
    root: Option<u16>,
    key: K,
) -> Result<Removal<V>, OutOfOrder>
    ensures drops_one_key { Removes (K.KeyKind) key nodes.old nodes.new account root result }
    ensures by_own_places { TakesByOwnWay (K.KeyKind) key nodes.old root result }
{
    match root {
        None => Ok(Removal {
            held: None,
            root: None,
            account,
        }),
        Some(top) => shrink(nodes, account, top, key),
    }
}
