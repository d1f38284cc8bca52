// Tags: two bytes; two sets of tags join to every tag of either.
ghost use Rattle.number_bytes.specs.BigEndian.{big_endian};
ghost use Rattle.records.specs.Joins.{all_tags};
ghost use Rattle.number_bytes.proofs.BigEndian.{length_big_endian, octets_big_endian, same_from_bytes};
ghost use Rattle.records.specs.SameValues.{tags_same};
ghost use Rattle.std.proofs.Common.{rules, arith, sym};
ghost use Rattle.std.specs.Int.Bits.{or_self};
ghost use Rattle.std.proofs.lemmas.Nat.{or_comm};
ghost use Rattle.records.specs.OrAssociative.{or_assoc};

use crate::joining::Joining;
use crate::kind::RecordKind;
use crate::values::Tags;
use number_bytes::FixedWidth;

impl RecordKind for Tags {
    const CODE: u16 = 2;

    const WIDTH: u8 = 2;

    ghost CODE = { 2 };

    ghost WIDTH = { 2 };

    ghost bytes = { λ t. big_endian 2 t.bits };

    ghost coded = { Prim.search rules };

    ghost bounded = { Prim.search rules };

    ghost sized = { λ h a. length_big_endian 2 a.bits };

    ghost octets = { λ h a. octets_big_endian 2 a.bits };

    ghost distinct = { λ h a b e. tags_same a b (same_from_bytes 2 a.bits b.bits a.fits b.fits e) };

    fn write(self, out: &mut [u8]) {
        self.bits.write(out);
    }

    fn read(from: &[u8]) -> Option<Tags> {
        Some(Tags {
            bits: u16::read(from)?,
        })
    }
}

impl Joining for Tags {
    ghost joined = { all_tags };

    ghost idempotent = { λ a. tags_same _ _ (or_self a.bits) };

    ghost commutative = { λ a b. tags_same _ _ (or_comm a.bits b.bits) };

    ghost associative = { λ a b c. tags_same _ _ (sym (or_assoc a.bits b.bits c.bits)) };

    // One operator on one field: no more than a line to share with another kind.
    fn join(self, other: Tags) -> Tags {
        Tags {
            bits: self.bits | other.bits,
        }
    }
}
