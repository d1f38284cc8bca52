//! The fields of calls and answers, read and printed: the one place that knows how keys and
//! records are made.
ghost use Rattle.std.specs.Prelude.{◌≡◌, ◌^◌, Some};
ghost use Rattle.script.specs.Readings.{given, optional, value, shelf, nodes, Converted};
ghost use Rattle.script.specs.Values.{key, lamp, lamp_words};
ghost use Rattle.script.specs.Printing.{spaced};

use crate::number::spelled;
use crate::words::Words;
use keys::Word;
use records::{Hours, Lamp, Pair, Setting, Tags};
use std::fmt;

impl Words<'_> {
    /// A number, where its type has room for it.
    // Not in line: with it written out at each field, a caller that has all of `parse` in line took a fifth more instructions.
    #[inline(never)]
    pub(crate) fn number<T: TryFrom<u32>>(&mut self) -> Option<T>
    where
        T::Error: Drop,
        ensures reads_a_number { Converted T.try_from_gives (value (2 ^ 32) self.old) (given result self.new) }
    {
        T::try_from(spelled(self.next()?)?).ok()
    }

    // With `number` in place of `shelf` and `nodes`, which say how wide these fields are, twenty goals of `call` stay open.
    pub(crate) fn shelf(&mut self) -> Option<u8>
        ensures reads_a_shelf { shelf self.old ≡ given result self.new }
    {
        self.number()
    }

    pub(crate) fn nodes(&mut self) -> Option<u32>
        ensures reads_nodes { nodes self.old ≡ given result self.new }
    {
        self.number()
    }

    pub(crate) fn key(&mut self) -> Option<Word>
        ensures reads_a_key { key self.old ≡ given result self.new }
    {
        Some(Word {
            light: self.number()?,
        })
    }

    /// A key, or none where the line ends.
    // Two options, since a word that is no key is not the same as no word: an enum of three would say no more.
    pub(crate) fn bound(&mut self) -> Option<Option<Word>>
        ensures reads_a_key_or_the_end { optional key self.old ≡ given result self.new }
    {
        if self.is_empty() {
            Some(None)
        } else {
            self.key().map(Some)
        }
    }

    pub(crate) fn record(&mut self) -> Option<Lamp>
        ensures reads_a_record { lamp self.old ≡ given result self.new }
    {
        Some(Pair {
            first: Hours {
                count: self.number()?,
            },
            second: Pair {
                first: Tags {
                    bits: self.number()?,
                },
                second: Setting {
                    stamp: self.number()?,
                    source: self.number()?,
                    word: self.number()?,
                },
            },
        })
    }
}

/// A record's five numbers, in the order in which they are read.
#[derive(Clone, Copy)]
pub(crate) struct Fields<'a>(pub(crate) &'a Lamp);

impl fmt::Display for Fields<'_> {
    ghost output = { λ x. Some (spaced (lamp_words x.0.now)) };

    fn fmt<W: fmt::Write>(&self, f: &mut fmt::Formatter<W>) -> fmt::Result {
        let record = self.0;
        let tags = record.second.first;
        let setting = record.second.second;
        write!(
            f,
            "{} {} {} {} {}",
            record.first.count, tags.bits, setting.stamp, setting.source, setting.word
        )
    }
}
