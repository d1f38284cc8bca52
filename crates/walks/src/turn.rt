ghost use Rattle.walks.specs.Turns.{Turns};

use crate::splitting::split_before;
use keys::KeyKind;

/// How a bound stands to all that is below a branch.
#[derive(Clone, Copy)]
pub enum Turn {
    /// All of it comes after the bound.
    After,
    /// All of it comes before the bound.
    Before,
    /// The bound shares the prefix of all below, and its bit names this side.
    Along { one: bool },
}

/// How a bound stands to all that is below a branch at a place.
pub fn turn_at<K: KeyKind>(bound: K, prefix: K, place: u8) -> Turn
    ensures by_the_first_difference { Turns (K.KeyKind) bound prefix place result }
{
    match split_before(bound, prefix, place) {
        Some(split) if bound.bit_at(split) => Turn::Before,
        Some(_) => Turn::After,
        None => Turn::Along {
            one: bound.bit_at(place),
        },
    }
}
