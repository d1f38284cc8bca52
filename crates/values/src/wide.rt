ghost use Rattle.std.specs.Prelude.{◌||◌, []};
ghost use Rattle.std.proofs.Common.{rules};

use records::{Joining, RecordKind};

/// A record kind that is too wide for files: it owes the laws of its join, and of its bytes nothing.
#[derive(Clone, Copy)]
pub struct Wide {
    pub on: bool,
}

impl RecordKind for Wide {
    const CODE: u16 = 9;

    const WIDTH: u8 = 65;

    ghost CODE = { 9 };

    ghost WIDTH = { 65 };

    ghost bytes = { λ _. [] };

    ghost coded = { Prim.search rules };

    ghost bounded = { Prim.search rules };

    ghost sized = { Prim.search rules };

    ghost octets = { Prim.search rules };

    ghost distinct = { Prim.search rules };

    fn write(self, _out: &mut [u8]) {}

    fn read(_from: &[u8]) -> Option<Wide> {
        None
    }
}

impl Joining for Wide {
    ghost joined = { λ a b. record { on = a.on || b.on } };

    ghost idempotent = { Prim.search rules };

    ghost commutative = { Prim.search rules };

    ghost associative = { Prim.search rules };

    // As tags join, on another type: no more than a line to share.
    fn join(self, other: Wide) -> Wide {
        Wide {
            on: self.on | other.on,
        }
    }
}
