ghost use Rattle.std.specs.Prelude.{◌≡◌};
ghost use Rattle.edits.specs.Faults.{as_refusal};
ghost use Rattle.edits.specs.declared.fault.InsertFault.TheVariants.{OutOfOrder};

use pool::{GrowRefusal, OutOfOrder};

/// Why an insertion ends early.
#[derive(Clone, Copy, PartialEq, Eq, Debug)]
pub enum InsertFault {
    /// The walk met what good order forbids.
    OutOfOrder,
    /// The key is new, and fewer nodes are free than it needs.
    TooFewNodes,
}

impl From<OutOfOrder> for InsertFault {
    ghost from_gives = { λ _ r. r ≡ OutOfOrder };

    fn from(_fault: OutOfOrder) -> InsertFault {
        InsertFault::OutOfOrder
    }
}

impl From<InsertFault> for GrowRefusal {
    ghost from_gives = { λ x y. y ≡ as_refusal x };

    fn from(fault: InsertFault) -> GrowRefusal {
        match fault {
            InsertFault::OutOfOrder => GrowRefusal::OutOfOrder,
            InsertFault::TooFewNodes => GrowRefusal::TooFewNodes,
        }
    }
}
