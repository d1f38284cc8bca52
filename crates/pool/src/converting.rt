// Refusals of inner layers as those of the calls above, so that `?` hands them on.
ghost use Rattle.std.specs.Prelude.{◌≡◌};
ghost use Rattle.pool.specs.Books.{as_growing};
ghost use Rattle.pool.specs.declared.refusal.WalkRefusal.TheVariants as walk;
ghost use Rattle.pool.specs.declared.refusal.GrowRefusal.TheVariants as grow;

use crate::outoforder::OutOfOrder;
use crate::refusal::{GrowRefusal, WalkRefusal};

impl From<OutOfOrder> for WalkRefusal {
    ghost from_gives = { λ _ y. y ≡ walk.OutOfOrder };

    fn from(_met: OutOfOrder) -> WalkRefusal {
        WalkRefusal::OutOfOrder
    }
}

impl From<OutOfOrder> for GrowRefusal {
    ghost from_gives = { λ _ y. y ≡ grow.OutOfOrder };

    fn from(_met: OutOfOrder) -> GrowRefusal {
        GrowRefusal::OutOfOrder
    }
}

impl From<WalkRefusal> for GrowRefusal {
    ghost from_gives = { λ x y. y ≡ as_growing x };

    fn from(refusal: WalkRefusal) -> GrowRefusal {
        match refusal {
            WalkRefusal::NoSuchShelf => GrowRefusal::NoSuchShelf,
            WalkRefusal::OutOfOrder => GrowRefusal::OutOfOrder,
        }
    }
}
