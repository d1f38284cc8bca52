ghost use Rattle.std.specs.Prelude.{◌≡◌};

use crate::kind::RecordKind;

/// A kind of record of which two for one key join to one.
///
/// By the three laws it does not matter in which order records are heard, in which groups they are joined, or
/// how often the same one is heard: two controllers that heard the same hold the same.
pub trait Joining: RecordKind {
    // What two records join to.
    ghost joined: { Self → Self → Self };

    /// The record that the two join to.
    fn join(self, other: Self) -> Self
        ensures joins { result ≡ joined self other };

    // A record joined with itself is that record, so hearing it again changes nothing.
    ghost idempotent: { (a : Self) → joined a a ≡ a };

    // Neither of the two comes first, so a caller may take them in any order.
    ghost commutative: { (a b : Self) → joined a b ≡ joined b a };

    // Of three, it does not matter which two are joined first, so a caller may join in any groups.
    ghost associative: { (a b c : Self) → joined a (joined b c) ≡ joined (joined a b) c };
}
