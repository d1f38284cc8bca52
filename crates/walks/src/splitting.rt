ghost use Rattle.std.specs.Prelude.{◌≡◌, ◌<◌, ◌≤◌, MatchOption};
ghost use Rattle.keys.specs.Split.{split};

use keys::{KeyKind, first_difference};

/// The place at which two keys split, if it comes before `place`.
pub fn split_before<K: KeyKind>(a: K, b: K, place: u8) -> Option<u8>
    ensures split_or_later { MatchOption result (place ≤ K.KeyKind.PLACES → place ≤ split (K.KeyKind) a b) (λ m. (split (K.KeyKind) a b ≡ m) × (m < place)) }
{
    match first_difference(a, b) {
        Some(m) if m < place => Some(m),
        _ => None,
    }
}
