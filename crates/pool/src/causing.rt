// The cause of each refusal, so that `?` hands a refusal on as its cause.
ghost use Rattle.std.specs.Prelude.{◌≡◌};
ghost use Rattle.pool.specs.Books.{open_cause, count_cause, walk_cause, grow_cause};

use crate::refusal::{CountRefusal, GrowRefusal, OpenRefusal, WalkRefusal};
use causes::Cause;

impl From<OpenRefusal> for Cause {
    ghost from_gives = { λ x y. y ≡ open_cause x };

    fn from(refusal: OpenRefusal) -> Cause {
        match refusal {
            OpenRefusal::TooManyNodes => Cause::TooManyNodes,
        }
    }
}

impl From<CountRefusal> for Cause {
    ghost from_gives = { λ x y. y ≡ count_cause x };

    fn from(refusal: CountRefusal) -> Cause {
        match refusal {
            CountRefusal::NoSuchShelf => Cause::NoSuchShelf,
        }
    }
}

impl From<WalkRefusal> for Cause {
    ghost from_gives = { λ x y. y ≡ walk_cause x };

    fn from(refusal: WalkRefusal) -> Cause {
        match refusal {
            WalkRefusal::NoSuchShelf => Cause::NoSuchShelf,
            WalkRefusal::OutOfOrder => Cause::OutOfOrder,
        }
    }
}

impl From<GrowRefusal> for Cause {
    ghost from_gives = { λ x y. y ≡ grow_cause x };

    fn from(refusal: GrowRefusal) -> Cause {
        match refusal {
            GrowRefusal::NoSuchShelf => Cause::NoSuchShelf,
            GrowRefusal::OutOfOrder => Cause::OutOfOrder,
            GrowRefusal::TooFewNodes => Cause::TooFewNodes,
        }
    }
}
