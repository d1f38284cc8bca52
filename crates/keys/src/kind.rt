ghost use Rattle.std.specs.Prelude.{◌≡◌, ℕ, ◌<◌, ◌≤◌, Bool, false, MatchOption, ◌≢◌};
ghost use Rattle.keys.specs.Bits.{binary};

/// A kind of keys: what a maker brings to index his maps by.
///
/// A key is its bits: a kind has 1 to 64 places, and for each key a bit at each place, of which
/// place 0 is the highest. Everything above this trait knows a key by its bits alone.
pub trait KeyKind: Copy {
    /// The code by which files know this kind.
    const CODE: u16;

    /// The number of places.
    const PLACES: u8;

    // The two constants again, as contracts name them: the check proves each equal to its constant.
    ghost CODE: { ℕ };

    ghost PLACES: { ℕ };
    // the bit at each place of a key
    ghost bit: { Self → ℕ → Bool };

    /// The bit at a place, 0 past the last one.
    fn bit_at(self, place: u8) -> bool
        ensures is_bit { result ≡ bit self place };

    /// The key that has this number, or `None` exactly where no key has it.
    // Not `TryFrom`: its error would have nothing to say, and a kind would owe one trait more.
    fn from_number(n: u64) -> Option<Self>
        ensures only_key_of_that_number { MatchOption result ((k : Self) → binary PLACES (bit k) ≢ n) (λ k. binary PLACES (bit k) ≡ n) };

    /// The key's number: its bits read in binary. A kind may answer it faster.
    fn number(self) -> u64
        ensures is_number { result ≡ binary PLACES (bit self) }
    {
        let mut n: u64 = 0;
        for p in 0..Self::PLACES {
            n = n * 2 + self.bit_at(p) as u64;
        }
        n
    }

    // a code has 16 bits
    ghost coded: { CODE < 65536 };

    // a kind has 1 to 64 places
    ghost places_bounded: { (1 ≤ PLACES) × (PLACES ≤ 64) };

    // past the last place every bit is 0
    ghost zero_beyond: { (k : Self) (p : ℕ) → PLACES ≤ p → bit k p ≡ false };

    // two keys with the same bits are the same key
    ghost same_bits: { (a b : Self) → ((p : ℕ) → p < PLACES → bit a p ≡ bit b p) → a ≡ b };
}
