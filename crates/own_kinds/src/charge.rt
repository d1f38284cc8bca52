ghost use Rattle.std.specs.Prelude.{[], ◌∷◌};
ghost use Rattle.own_kinds.specs.Kinds.{lower};
ghost use Rattle.own_kinds.specs.Same.{charge_same};
ghost use Rattle.std.proofs.Common.{rules};
ghost use Rattle.own_kinds.specs.Lower.{lower_comm};

use crate::values::Charge;
use records::{Joining, RecordKind};

const FULL: u8 = 100;

/// Charges as records: one byte, of which those above 100 are no charge.
impl RecordKind for Charge {
    const CODE: u16 = 200;

    const WIDTH: u8 = 1;

    ghost CODE = { 200 };

    ghost WIDTH = { 1 };

    ghost bytes = { λ c. c.percent ∷ [] };

    ghost coded = { Prim.search rules };

    ghost bounded = { Prim.search rules };

    ghost sized = { Prim.search rules };

    ghost octets = { Prim.search rules };

    // charges with the same byte are the same charge; the other laws the prover finds by itself
    ghost distinct = { λ w a b e. charge_same a b (cc) };

    fn write(self, out: &mut [u8]) {
        if let [byte] = out {
            *byte = self.percent;
        }
    }

    fn read(from: &[u8]) -> Option<Charge> {
        match from {
            [percent] if *percent <= FULL => Some(Charge { percent: *percent }),
            _ => None,
        }
    }
}

/// Of two charges the lower one counts: a battery that was once seen low wants a visit.
impl Joining for Charge {
    ghost joined = { lower };

    ghost idempotent = { Prim.search rules };

    ghost commutative = { lower_comm };

    ghost associative = { Prim.search rules };

    fn join(self, other: Charge) -> Charge {
        self.min(other)
    }
}
