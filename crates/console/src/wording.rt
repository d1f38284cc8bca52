//! From the pool's answers to those of the script.
ghost use Rattle.std.specs.Prelude.{◌≡◌};
ghost use Rattle.console.specs.Wording.{spoken};

use keys::Word;
use records::Lamp;
use runs::{Answer as PoolAnswer, Call as PoolCall, Reply};
use script::Answer;

/// What comes of a call on the pool, as the script has it. A number is of nodes where the free ones were asked for, and
/// of keys elsewhere.
// Not `From`: the call is wanted too, and neither type is this crate's own.
pub(crate) fn spoken(call: PoolCall<Word, Lamp>, reply: Reply<Word, Lamp>) -> Answer
    ensures says_the_answer { result ≡ spoken call reply }
{
    match reply {
        Ok(PoolAnswer::Done) => Answer::Done,
        Ok(PoolAnswer::Found(found)) => Answer::Record(found),
        Ok(PoolAnswer::Entry(found)) => Answer::Entry(found),
        Ok(PoolAnswer::Number(nodes)) if matches!(call, PoolCall::Free) => Answer::Free(nodes),
        Ok(PoolAnswer::Number(keys)) => Answer::Count(keys),
        Err(cause) => Answer::Refused(cause),
    }
}
