ghost use Rattle.std.specs.Prelude.{◌≡◌, ℕ, ◌-◌, ◌≤◌, true, false, Some, None, ◌≢◌, bit_xor, nat_lt};
ghost use Rattle.std.specs.Int.Count.{count_leading_zeros};
ghost use Rattle.keys.specs.Model.{number as number_of, Numbers, OrderedByFirstDifference};
ghost use Rattle.keys.specs.Split.{DifferFirst};

use crate::kind::KeyKind;

/// Two keys with the same number are the same key: no code, a fact that other code may cite by calling it.
pub fn numbers_tell_keys_apart<K: KeyKind>()
    ensures same_number_same_key { (a b : K) → number_of (K.KeyKind) a ≡ number_of (K.KeyKind) b → a ≡ b }
{}

/// The order of keys by number is their order by the first bit that differs: a fact, as above.
pub fn first_difference_decides_order<K: KeyKind>()
    ensures order_is_by_first_difference { (a b : K) → OrderedByFirstDifference (K.KeyKind) a b }
{}

/// Whether two keys are one.
// No `Eq` or `Ord` of the kind's own, here or below: that bound would ask more of makers, and a derived order need not be
// that of the numbers.
pub fn same_key<K: KeyKind>(a: K, b: K) -> bool
    ensures true_of_one_key { result ≡ true → a ≡ b }
    ensures false_of_two { result ≡ false → a ≢ b }
{
    numbers_tell_keys_apart::<K>();
    a.number() == b.number()
}

/// Whether `a` comes before `b` in the order of keys.
pub fn comes_before<K: KeyKind>(a: K, b: K) -> bool
    ensures by_number { result ≡ nat_lt (number_of (K.KeyKind) a) (number_of (K.KeyKind) b) }
{
    a.number() < b.number()
}

// The leading zeros of the exclusive or of two keys' numbers lead to the first difference: a fact, as above.
fn highest_bit_is_first_difference<K: KeyKind>(a: K, b: K)
    ensures equal_numbers { (x y : ℕ) → Numbers (K.KeyKind) a b x y → bit_xor x y ≡ 0 → DifferFirst (K.KeyKind) a b None }
    ensures zeros_past_idle_places { (x y w : ℕ) → Numbers (K.KeyKind) a b x y → w ≡ K.KeyKind.PLACES → (bit_xor x y ≢ 0) → 64 - w ≤ count_leading_zeros 64 (bit_xor x y) }
    ensures first_place { (x y w : ℕ) → Numbers (K.KeyKind) a b x y → w ≡ K.KeyKind.PLACES → (bit_xor x y ≢ 0) → DifferFirst (K.KeyKind) a b (Some (count_leading_zeros 64 (bit_xor x y) - (64 - w))) }
{}

/// The first place in which two keys differ, or `None` where they are one key.
pub fn first_difference<K: KeyKind>(a: K, b: K) -> Option<u8>
    ensures first_place_or_same_key { DifferFirst (K.KeyKind) a b result }
{
    highest_bit_is_first_difference(a, b);
    let differing = a.number() ^ b.number();
    if differing == 0 {
        return None;
    }
    // the number's lowest bit is the last place, so 64 less the places stand idle above place 0
    let idle = 64 - K::PLACES;
    Some(differing.leading_zeros() as u8 - idle)
}
