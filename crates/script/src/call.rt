//! The calls that a line can spell, and the line that spells each.
ghost use Rattle.script.specs.Printing.{line_of};
ghost use Rattle.std.specs.Prelude.{Some};

use crate::fields::Fields;
use keys::Word;
use records::Lamp;
use std::fmt;

// Not made of `runs::Call`: the language rests on no pool, and in place of a type it would take over the crates below the console.
#[derive(Drop)]
pub enum Call {
    /// A pool of so many nodes, in which every map is empty.
    Open { nodes: u32 },
    /// A record that was heard for a key.
    Put { shelf: u8, key: Word, record: Lamp },
    /// The record at a key.
    Look { shelf: u8, key: Word },
    /// The record at a key, which leaves the shelf with its key.
    Remove { shelf: u8, key: Word },
    /// The least key after the bound with its record; without a bound, the least of all.
    Next { shelf: u8, bound: Option<Word> },
    /// Every key of a shelf with its record.
    List { shelf: u8 },
    /// A shelf with no key.
    Clear { shelf: u8 },
    /// The number of keys of a shelf.
    Count { shelf: u8 },
    /// The number of nodes that no shelf uses.
    Free,
}

/// A call is printed as the line that spells it.
impl fmt::Display for Call {
    ghost output = { λ c. Some (line_of c) };

    fn fmt<W: fmt::Write>(&self, f: &mut fmt::Formatter<W>) -> fmt::Result {
        match self {
            Call::Open { nodes } => write!(f, "open {nodes}"),
            Call::Put { shelf, key, record } => write!(
                f,
                "put {shelf} {} {}",
                key.light,
                Fields(record)
            ),
            Call::Look { shelf, key } => write!(f, "look {shelf} {}", key.light),
            Call::Remove { shelf, key } => write!(f, "remove {shelf} {}", key.light),
            Call::Next { shelf, bound } => match bound {
                None => write!(f, "next {shelf}"),
                Some(key) => write!(f, "next {shelf} {}", key.light),
            },
            Call::List { shelf } => write!(f, "list {shelf}"),
            Call::Clear { shelf } => write!(f, "clear {shelf}"),
            Call::Count { shelf } => write!(f, "count {shelf}"),
            Call::Free => write!(f, "free"),
        }
    }
}
