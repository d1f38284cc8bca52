// How two trees meet, as their first nodes tell it.
ghost use Rattle.std.specs.Result.{MatchResult};
ghost use Rattle.unions.specs.Meets.{Meets, Shows, Vacant};

use keys::{KeyKind, first_difference};
use pool::{Node, OutOfOrder};
use std::cmp::Ordering;

/// What a node shows of its tree: the place at which it parts, and a key whose first bits are its prefix. A leaf
/// counts as the number of places.
#[derive(Clone, Copy)]
pub struct Face<K> {
    pub place: u8,
    pub key: K,
}

/// How a tree meets a second one.
#[derive(Clone, Copy)]
pub enum Meeting {
    /// Their prefixes differ first at this place, before the places of both.
    Apart { place: u8 },
    /// The second goes into a side of the first.
    Into,
    /// The first goes into a side of the second.
    Under,
    /// Both part at one place.
    Level,
}

/// What a node shows; a free one shows nothing.
pub fn face_of<K: KeyKind, V: Copy>(node: Node<K, V>) -> Result<Face<K>, OutOfOrder>
    ensures place_and_key { MatchResult result (λ f. Shows (K.KeyKind) node f.place f.key) (λ _. Vacant node) }
{
    match node {
        Node::Free { .. } => Err(OutOfOrder),
        Node::Leaf { key, .. } => Ok(Face {
            place: K::PLACES,
            key,
        }),
        Node::Branch { place, key, .. } => Ok(Face { place, key }),
    }
}

/// How the trees of two faces meet.
pub fn meet<K: KeyKind>(first: Face<K>, second: Face<K>) -> Meeting
    ensures by_prefix_and_place { Meets (K.KeyKind) first.place first.key second.place second.key result }
{
    match first_difference(second.key, first.key) {
        Some(place) if place < first.place && place < second.place => Meeting::Apart { place },
        _ => match first.place.cmp(&second.place) {
            Ordering::Less => Meeting::Into,
            Ordering::Greater => Meeting::Under,
            Ordering::Equal => Meeting::Level,
        },
    }
}
