/// The cause of a refusal, with the number by which it is known outside. The numbers are part of the interface: see
/// docs/REFUSALS.md.
#[derive(Clone, Copy, PartialEq, Eq, Debug)]
pub enum Cause {
    TooManyNodes = 1,
    NoSuchShelf = 2,
    OutOfOrder = 3,
    TooFewNodes = 4,
    RecordTooWide = 5,
    NotBlockLength = 6,
    CheckWrong = 7,
    OtherKinds = 8,
    NumberOrLastMark = 9,
    CountOrPadding = 10,
    Unreadable = 11,
    NotRising = 12,
    BlockFull = 13,
    BufferTooShort = 14,
    InputEndsEarly = 15,
    TooManyFiles = 16,
}
