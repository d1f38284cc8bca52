//! Words of digits, read as numbers.
ghost use Rattle.std.specs.Prelude.{◌≡◌, ◌^◌};
ghost use Rattle.script.specs.Numerals.{numeral, below, plain};

/// The number that the digits of a word spell, where it has no more than 32 bits.
pub(crate) fn spelled(word: &[u8]) -> Option<u32>
    ensures is_the_number { result ≡ plain (below (2 ^ 32) (numeral 0 word.now)) }
{
    let mut number: u32 = 0;
    for byte in word {
        let digit = char::from(*byte).to_digit(10)?;
        // One test whether the number still fits: `checked_mul` and `checked_add` are two, and took longer.
        number = u32::try_from(u64::from(number) * 10 + u64::from(digit)).ok()?;
    }
    Some(number)
}
