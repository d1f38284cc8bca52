// Where a key belongs in a tree: the walk before an insertion.
ghost use Rattle.std.specs.Prelude.{Some, Option, MatchResult};
ghost use Rattle.trees.specs.Tree.{Tree};
ghost use Rattle.pool.specs.Walks.{Rooted};
ghost use Rattle.edits.specs.Seats.{SeatedIfAny};

use keys::{KeyKind, first_difference};
use pool::inner::node_at;
use pool::{Node, OutOfOrder};
use walks::inner::{Sides, split_before};

/// Beside a node: a place before the node's own, at which a key splits from the node's keys.
#[derive(Clone, Copy)]
pub struct Gap {
    pub at: u16,
    pub place: u8,
}

/// Where a key belongs in a tree.
#[derive(Clone, Copy)]
pub enum Seat<K, V> {
    /// In the leaf at this index, whose key it is, and which holds this record.
    Taken { at: u16, own: K, held: V },
    /// Beside a node.
    Open(Gap),
}

/// The seat of `key` in the tree at `top`: one walk down, which stops at the first node whose prefix the key
/// does not share.
pub fn seek<K: KeyKind, V: Copy>(
    nodes: &[Node<K, V>],
    top: u16,
    key: K,
) -> Result<Seat<K, V>, OutOfOrder>
    ensures where_the_key_belongs { (map : Option (Tree K V)) → Rooted (K.KeyKind) nodes.now (Some top) map → MatchResult result (λ s. SeatedIfAny (K.KeyKind) nodes.now key s map) (λ _. ⊥) }
{
    // nodes are read here and not by walks' step_at: with it a put took a quarter longer, measured
    let places = K::PLACES;
    let mut at = top;
    let mut least = 0;
    loop {
        let node = node_at(nodes, at)?;
        match node {
            Node::Free { .. } => return Err(OutOfOrder),
            Node::Leaf {
                key: own,
                record: held,
            } => match first_difference(key, own) {
                None => return Ok(Seat::Taken { at, own, held }),
                Some(place) => return Ok(Seat::Open(Gap { at, place })),
            },
            Node::Branch {
                place,
                key: own,
                zero,
                one,
            } => {
                if place < least || place >= places {
                    return Err(OutOfOrder);
                }
                match split_before(key, own, place) {
                    Some(earlier) => return Ok(Seat::Open(Gap { at, place: earlier })),
                    None => {
                        least = place + 1;
                        at = Sides::towards(key, place, zero, one).near;
                    }
                }
            }
        }
    }
}
