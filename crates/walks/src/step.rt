ghost use Rattle.std.specs.Prelude.{◌≡◌, MatchResult};
ghost use Rattle.walks.specs.Leads.{NoneGrows, Stepped, Within};
ghost use Rattle.walks.specs.declared.step.Reach.TheVariants.{OwnPlaces};

use keys::KeyKind;
use pool::inner::node_at;
use pool::{Node, OutOfOrder};

/// What a walk down a tree meets.
#[derive(Clone, Copy)]
pub enum Step<K, V> {
    /// The end of the way.
    Leaf {
        key: K,
        record: V,
    },
    /// A choice between two sides.
    Branch {
        place: u8,
        prefix: K,
        zero: u16,
        one: u16,
    },
}

/// How far down a walk goes on, in a tree whose places pass the last one of its kind.
#[derive(Clone, Copy, PartialEq, Eq, Debug)]
pub enum Reach {
    /// As a question does: past the last place every bit is 0.
    AnyPlace,
    /// As a change does, which refuses such a branch.
    OwnPlaces,
}

/// The node at which a walk stands. Places must grow on the way down, so that every walk ends, on any slice: a branch at
/// a place before `least` is refused, and one that is out of reach.
// The walks keep `at` and `least` as two variables: a struct of them would be made anew at each branch, by the same two
// lines, and taken apart for the answer, which names `at` alone.
pub fn step_at<K: KeyKind, V: Copy>(
    nodes: &[Node<K, V>],
    at: u16,
    least: u16,
    reach: Reach,
) -> Result<Step<K, V>, OutOfOrder>
    ensures node_or_no_tree { MatchResult result (Stepped nodes.now least at) (λ _. NoneGrows (K.KeyKind) nodes.now least at) }
    ensures own_places { reach ≡ OwnPlaces → MatchResult result (Within (K.KeyKind)) (λ _. Unit {0}) }
{
    match node_at(nodes, at)? {
        Node::Leaf { key, record } => Ok(Step::Leaf { key, record }),
        Node::Branch { place, .. } if (place as u16) < least => Err(OutOfOrder),
        Node::Branch { place, .. } if reach == Reach::OwnPlaces && place >= K::PLACES => {
            Err(OutOfOrder)
        }
        Node::Branch {
            place,
            key: prefix,
            zero,
            one,
        } => Ok(Step::Branch {
            place,
            prefix,
            zero,
            one,
        }),
        Node::Free { .. } => Err(OutOfOrder),
    }
}
