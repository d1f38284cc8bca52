//! What the console does at a call.
ghost use Rattle.std.specs.Prelude.{◌≡◌};
ghost use Rattle.console.specs.Wording.{task_of};

use keys::Word;
use records::Lamp;
use runs::Call as PoolCall;
use script::Call;

// The way from `script::Call` to `runs::Call`, which are apart since the language rests on no pool.
#[derive(Drop)]
pub(crate) enum Task {
    /// Takes a new pool of so many nodes.
    Open(u32),
    /// Tells a shelf, entry by entry.
    List(u8),
    /// Has the pool carry out one call.
    Play(PoolCall<Word, Lamp>),
}

impl From<Call> for Task {
    ghost from_gives = { λ call task. task ≡ task_of call };

    fn from(call: Call) -> Task {
        match call {
            Call::Open { nodes } => Task::Open(nodes),
            Call::Put { shelf, key, record } => Task::Play(PoolCall::Put {
                shelf,
                key,
                told: record,
            }),
            Call::Look { shelf, key } => Task::Play(PoolCall::Look { shelf, key }),
            Call::Remove { shelf, key } => Task::Play(PoolCall::Remove { shelf, key }),
            Call::Next { shelf, bound } => Task::Play(PoolCall::Next { shelf, bound }),
            Call::List { shelf } => Task::List(shelf),
            Call::Clear { shelf } => Task::Play(PoolCall::Clear { shelf }),
            Call::Count { shelf } => Task::Play(PoolCall::Count { shelf }),
            Call::Free => Task::Play(PoolCall::Free),
        }
    }
}
