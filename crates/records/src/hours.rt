// Hours: four bytes; two counts join to the larger.
ghost use Rattle.number_bytes.specs.BigEndian.{big_endian};
ghost use Rattle.records.specs.Joins.{more_hours};
ghost use Rattle.number_bytes.proofs.BigEndian.{length_big_endian, octets_big_endian, same_from_bytes};
ghost use Rattle.records.specs.SameValues.{hours_same};
ghost use Rattle.std.proofs.Common.{rules, arith};
ghost use Rattle.records.specs.LargerLemmas.{larger_comm};

use crate::joining::Joining;
use crate::kind::RecordKind;
use crate::values::Hours;
use number_bytes::FixedWidth;

impl RecordKind for Hours {
    const CODE: u16 = 1;

    const WIDTH: u8 = 4;

    ghost CODE = { 1 };

    ghost WIDTH = { 4 };

    ghost bytes = { λ h. big_endian 4 h.count };

    ghost coded = { Prim.search rules };

    ghost bounded = { Prim.search rules };

    ghost sized = { λ h a. length_big_endian 4 a.count };

    ghost octets = { λ h a. octets_big_endian 4 a.count };

    ghost distinct = { λ h a b e. hours_same a b (same_from_bytes 4 a.count b.count a.fits b.fits e) };

    fn write(self, out: &mut [u8]) {
        self.count.write(out);
    }

    // As tags are read, but for the types: no more than a line to share.
    fn read(from: &[u8]) -> Option<Hours> {
        Some(Hours {
            count: u32::read(from)?,
        })
    }
}

impl Joining for Hours {
    ghost joined = { more_hours };

    ghost idempotent = { Prim.search rules };

    ghost commutative = { larger_comm (λ h. h.count) hours_same };

    ghost associative = { Prim.search rules };

    fn join(self, other: Hours) -> Hours {
        self.max(other)
    }
}
