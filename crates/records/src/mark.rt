// Marks: no bytes at all; there is one mark, so there is nothing to choose.
ghost use Rattle.std.specs.Prelude.{[]};
ghost use Rattle.std.proofs.Common.{rules};

use crate::joining::Joining;
use crate::kind::RecordKind;
use crate::values::Mark;

impl RecordKind for Mark {
    const CODE: u16 = 4;

    const WIDTH: u8 = 0;

    ghost CODE = { 4 };

    ghost WIDTH = { 0 };

    ghost bytes = { λ _. [] };

    ghost coded = { Prim.search rules };

    ghost bounded = { Prim.search rules };

    ghost sized = { Prim.search rules };

    ghost octets = { Prim.search rules };

    ghost distinct = { Prim.search rules };

    fn write(self, _out: &mut [u8]) {}

    fn read(from: &[u8]) -> Option<Mark> {
        from.is_empty().then_some(Mark)
    }
}

impl Joining for Mark {
    ghost joined = { λ a _. a };

    ghost idempotent = { Prim.search rules };

    ghost commutative = { Prim.search rules };

    ghost associative = { Prim.search rules };

    fn join(self, _other: Mark) -> Mark {
        self
    }
}
