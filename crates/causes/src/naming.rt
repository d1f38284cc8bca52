ghost use Rattle.std.specs.Prelude.{◌≡◌, Some};
ghost use Rattle.causes.specs.Causes.{number_of, word_for};

use crate::cause::Cause;
use std::fmt;

impl Cause {
    /// The number by which a refusal is known outside.
    pub fn number(self) -> u8
        ensures is_its_number { result ≡ number_of self }
    {
        self as u8
    }

    /// The cause in words, for people.
    pub fn word(self) -> &'static str
        ensures is_its_word { result.now ≡ word_for self }
    {
        match self {
            Cause::TooManyNodes => "too many nodes",
            Cause::NoSuchShelf => "no such shelf",
            Cause::OutOfOrder => "out of order",
            Cause::TooFewNodes => "too few nodes",
            Cause::RecordTooWide => "record too wide",
            Cause::NotBlockLength => "not 512 bytes",
            Cause::CheckWrong => "check wrong",
            Cause::OtherKinds => "other kinds",
            Cause::NumberOrLastMark => "number or last mark",
            Cause::CountOrPadding => "count or padding",
            Cause::Unreadable => "unreadable",
            Cause::NotRising => "not rising",
            Cause::BlockFull => "block full",
            Cause::BufferTooShort => "buffer too short",
            Cause::InputEndsEarly => "input ends early",
            Cause::TooManyFiles => "too many files",
        }
    }
}

/// A cause is printed as its word.
impl fmt::Display for Cause {
    ghost output = { λ c. Some (word_for c) };

    fn fmt<W: fmt::Write>(&self, f: &mut fmt::Formatter<W>) -> fmt::Result {
        f.write_str(self.word())
    }
}
