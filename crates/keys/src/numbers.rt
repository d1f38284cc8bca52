// Keys whose bits are those of a number.
ghost use Rattle.std.specs.Prelude.{◌≡◌, ℕ, ◌^◌, ◌<◌, Bool};
ghost use Rattle.keys.specs.Bits.{bits_of, binary};

/// A number that fits its places is what its bits write, and no bits write a larger one: no code, a fact that
/// a kind's `number` and `from_number` cite by calling it.
pub fn bits_write_their_number()
    ensures back_again { (w n : ℕ) → n < 2 ^ w → n ≡ binary w (bits_of w n) }
    ensures none_above { (w : ℕ) (f : ℕ → Bool) → binary w f < 2 ^ w }
{}

/// The bit of a number at a place, of so many places, of which place 0 is the highest. Past the last place it is 0.
pub fn number_bit(number: u64, places: u8, place: u8) -> bool
    ensures is_bit_of_number { result ≡ bits_of places number place }
{
    if place >= places {
        return false;
    }
    number.checked_shr((places - 1 - place) as u32).unwrap_or(0) % 2 == 1
}
