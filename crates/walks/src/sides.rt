ghost use Rattle.std.specs.Prelude.{◌≡◌, if◌then◌else◌};
ghost use Rattle.pool.specs.declared.node.Node.TheVariants.{Branch};

use keys::KeyKind;
use pool::Node;

/// The two sides of a branch, as one who goes by a bit sees them.
#[derive(Clone, Copy)]
pub struct Sides {
    /// The side that the bit names.
    pub near: u16,
    /// The other side.
    pub far: u16,
}

impl Sides {
    /// The sides of a branch, by a bit.
    pub fn by(bit: bool, zero: u16, one: u16) -> Self
        ensures near_by_bit { result.near ≡ (if bit then one else zero) }
        ensures far_by_bit { result.far ≡ (if bit then zero else one) }
    {
        if bit {
            Sides {
                near: one,
                far: zero,
            }
        } else {
            Sides {
                near: zero,
                far: one,
            }
        }
    }

    /// The sides of a branch at `place`, by the bit of `key` there.
    pub fn towards<K: KeyKind>(key: K, place: u8, zero: u16, one: u16) -> Self
        ensures near_by_bit { result.near ≡ (if K.KeyKind.bit key place then one else zero) }
        ensures far_by_bit { result.far ≡ (if K.KeyKind.bit key place then zero else one) }
    {
        Self::by(key.bit_at(place), zero, one)
    }
}

/// The branch that has these sides, by a bit.
pub fn branch_over<K: Copy, V: Copy>(place: u8, key: K, bit: bool, sides: Sides) -> Node<K, V>
    ensures near_by_bit { result ≡ Branch place key (if bit then sides.far else sides.near) (if bit then sides.near else sides.far) }
{
    let Sides { near, far } = sides;
    let (zero, one) = if bit { (far, near) } else { (near, far) };
    Node::Branch {
        place,
        key,
        zero,
        one,
    }
}
