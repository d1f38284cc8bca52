ghost use Rattle.std.specs.Prelude.{◌≡◌};
ghost use Rattle.runs.specs.declared.refusal.RunRefusal.TheVariants.{TooManyNodes};

use pool::OpenRefusal;

/// Why a list of calls is not played.
#[derive(Clone, Copy, PartialEq, Eq, Debug)]
pub enum RunRefusal {
    /// There are more calls than places for their answers.
    TooFewAnswers,
    /// The pool has more nodes than a pool may have.
    TooManyNodes,
}

impl From<OpenRefusal> for RunRefusal {
    ghost from_gives = { λ _ y. y ≡ TooManyNodes };

    fn from(refusal: OpenRefusal) -> RunRefusal {
        match refusal {
            OpenRefusal::TooManyNodes => RunRefusal::TooManyNodes,
        }
    }
}
