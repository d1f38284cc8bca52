//! What the console says to a call, each on a line of its own.
ghost use Rattle.script.specs.Printing.{answer_line};
ghost use Rattle.std.specs.Prelude.{Some};

use crate::fields::Fields;
use causes::Cause;
use keys::Word;
use records::Lamp;
use std::fmt;

// Apart from `runs::Answer` as `Call` is from `runs::Call`: the language rests on no pool.
// Refusals and bad lines are variants and no `Err` beside it: each answer is a line that is printed.
#[derive(Drop)]
pub enum Answer {
    /// The call was carried out.
    Done,
    /// The record at the key, or none.
    Record(Option<Lamp>),
    /// A key with its record, or none.
    Entry(Option<(Word, Lamp)>),
    /// The list is whole, with so many entries.
    End(u16),
    /// A shelf has so many keys.
    Count(u16),
    /// So many nodes are free.
    Free(u16),
    Refused(Cause),
    /// The line of this number spells no call.
    BadLine(u64),
}

impl fmt::Display for Answer {
    ghost output = { λ a. Some (answer_line a) };

    fn fmt<W: fmt::Write>(&self, f: &mut fmt::Formatter<W>) -> fmt::Result {
        match self {
            Answer::Done => write!(f, "ok"),
            Answer::Record(Some(record)) => write!(f, "record {}", Fields(record)),
            Answer::Entry(Some((key, record))) => {
                write!(f, "entry {} {}", key.light, Fields(record))
            }
            Answer::Record(None) | Answer::Entry(None) => write!(f, "none"),
            Answer::End(count) => write!(f, "end {count}"),
            Answer::Count(keys) => write!(f, "count {keys}"),
            Answer::Free(nodes) => write!(f, "free {nodes}"),
            Answer::Refused(cause) => write!(f, "refused {}", cause.number()),
            Answer::BadLine(number) => write!(f, "bad line {number}"),
        }
    }
}
