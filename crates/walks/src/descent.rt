ghost use Rattle.std.specs.Prelude.{◌≡◌, ℕ, Bool, Some, None, Option, MatchResult};
ghost use Rattle.trees.specs.Tree.{Tree};
ghost use Rattle.pool.specs.Walks.{Rooted};
ghost use Rattle.walks.specs.Leads.{Grows};
ghost use Rattle.walks.specs.Landings.{landing, LandsIfAny};
ghost use Rattle.walks.specs.Ways.{LandsByOwnWay};
ghost use Rattle.walks.specs.declared.step.Reach.TheVariants.{OwnPlaces};

use crate::sides::Sides;
use crate::step::{Reach, Step, step_at};
use keys::KeyKind;
use pool::{Node, OutOfOrder};

/// A branch right above a leaf, and the root of its other side.
#[derive(Clone, Copy)]
pub struct Parent {
    pub at: u16,
    pub sibling: u16,
}

/// The leaf at which a walk ended, what it holds, and the branch above it, if there is one.
#[derive(Clone, Copy)]
pub struct Landing<K, V> {
    pub at: u16,
    pub own: K,
    pub held: V,
    pub parent: Option<Parent>,
}

/// The leaf of the tree at `top` to which `bit` leads, which names a side at each place.
pub(crate) fn descend<K: KeyKind, V: Copy, F: Fn(u8) -> bool>(
    nodes: &[Node<K, V>],
    top: u16,
    reach: Reach,
    bit: F,
) -> Result<Landing<K, V>, OutOfOrder>
    requires names_sides { F.IsAlwaysCallable bit }
    ensures where_the_bits_lead { (goes : ℕ → Bool) → ((p : ℕ) (b : Bool) → F.post bit p b → b ≡ goes p) → (t : Tree K V) → Grows (K.KeyKind) nodes.now 0 top t → MatchResult result (λ d. d ≡ landing goes None t) (λ _. ⊥) }
    ensures by_own_places { reach ≡ OwnPlaces → MatchResult result (LandsByOwnWay (K.KeyKind) nodes.now top) (λ _. Unit {0}) }
{
    let mut at = top;
    let mut least: u16 = 0;
    let mut parent = None;
    loop {
        match step_at(nodes, at, least, reach)? {
            Step::Leaf {
                key: own,
                record: held,
            } => return Ok(Landing {
                at,
                own,
                held,
                parent,
            }),
            Step::Branch {
                place,
                zero,
                one,
                ..
            } => {
                let sides = Sides::by(bit(place), zero, one);
                least = place as u16 + 1;
                parent = Some(Parent {
                    at,
                    sibling: sides.far,
                });
                at = sides.near;
            }
        }
    }
}

/// The leaf to which the bits of `key` lead in the tree at `top`: the only one that can have the key.
pub fn leaf_towards<K: KeyKind, V: Copy>(
    nodes: &[Node<K, V>],
    top: u16,
    reach: Reach,
    key: K,
) -> Result<Landing<K, V>, OutOfOrder>
    ensures only_leaf_for_the_key { (map : Option (Tree K V)) → Rooted (K.KeyKind) nodes.now (Some top) map → MatchResult result (λ d. LandsIfAny (K.KeyKind) key d map) (λ _. ⊥) }
    ensures by_own_places { reach ≡ OwnPlaces → MatchResult result (LandsByOwnWay (K.KeyKind) nodes.now top) (λ _. Unit {0}) }
{
    descend(nodes, top, reach, |place| key.bit_at(place))
}
