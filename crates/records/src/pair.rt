// A pair of any two kinds, the first part's bytes before the second's. The laws are proved once, from the parts' laws.
ghost use Rattle.std.specs.Prelude.{◌++◌};
ghost use Rattle.records.specs.Joins.{parts_joined};
ghost use Rattle.records.specs.Pairs.{pair_code, pair_width};
ghost use Rattle.std.proofs.Common.{arith, length-append, rules};
ghost use Rattle.records.specs.PairWidth.{first_narrow, second_narrow};
ghost use Rattle.number_bytes.proofs.Octets.{octets_append};
ghost use Rattle.std.proofs.Math.Path.{ap₂};
ghost use Rattle.records.specs.ListParts.{split_same};
ghost use Rattle.records.specs.PairKindLemmas.{pair};

use crate::joining::Joining;
use crate::kind::RecordKind;
use crate::values::Pair;

impl<A: RecordKind, B: RecordKind> RecordKind for Pair<A, B> {
    // The operators wrap, since a constant is computed before any law is known of the parts' constants.
    const CODE: u16 = A::CODE
        .wrapping_mul(16)
        .wrapping_add(B::CODE)
        .wrapping_add(256);

    const WIDTH: u8 = if A::WIDTH.wrapping_add(B::WIDTH) <= 64 {
        A::WIDTH.wrapping_add(B::WIDTH)
    } else {
        65
    };

    ghost CODE = { pair_code A.RecordKind.CODE B.RecordKind.CODE };

    ghost WIDTH = { pair_width A.RecordKind.WIDTH B.RecordKind.WIDTH };

    ghost bytes = { λ p. A.RecordKind.bytes p.first ++ B.RecordKind.bytes p.second };

    ghost coded = { Prim.search rules };

    ghost bounded = { Prim.search rules };

    ghost sized = { λ h a.
        let p = first_narrow A.RecordKind.WIDTH B.RecordKind.WIDTH h in
        let q = second_narrow A.RecordKind.WIDTH B.RecordKind.WIDTH h in
        simp length-append (omega (arith, A.RecordKind.sized p a.first, B.RecordKind.sized q a.second)) };

    ghost octets = { λ h a.
        let p = first_narrow A.RecordKind.WIDTH B.RecordKind.WIDTH h in
        let q = second_narrow A.RecordKind.WIDTH B.RecordKind.WIDTH h in
        octets_append (A.RecordKind.bytes a.first) (B.RecordKind.bytes a.second) (A.RecordKind.octets p a.first) (B.RecordKind.octets q a.second) };

    ghost distinct = { unfold pair in
        λ h a b e.
        let p = first_narrow A.RecordKind.WIDTH B.RecordKind.WIDTH h in
        let q = second_narrow A.RecordKind.WIDTH B.RecordKind.WIDTH h in
        let A' = A.RecordKind in
        let B' = B.RecordKind in
        let same = split_same A.RecordKind.WIDTH _ _ _ _ (A'.sized p a.first) (A'.sized p b.first) e in
        ap₂ pair (A'.distinct p _ _ same.0) (B'.distinct q _ _ same.1) };

    fn write(self, out: &mut [u8]) {
        if out.len() != Self::WIDTH as usize {
            return;
        }
        let mid = A::WIDTH as usize;
        self.first.write(&mut out[0..mid]);
        self.second.write(&mut out[mid..]);
    }

    fn read(from: &[u8]) -> Option<Pair<A, B>> {
        let (front, back) = from.split_at_checked(A::WIDTH as usize)?;
        let first = A::read(front)?;
        let second = B::read(back)?;
        Some(Pair { first, second })
    }
}

impl<A: Joining, B: Joining> Joining for Pair<A, B> {
    ghost joined = { parts_joined A.Joining.joined B.Joining.joined };

    ghost idempotent = { Prim.search rules };

    ghost commutative = { Prim.search rules };

    ghost associative = { Prim.search rules };

    fn join(self, other: Pair<A, B>) -> Pair<A, B> {
        Pair {
            first: self.first.join(other.first),
            second: self.second.join(other.second),
        }
    }
}
