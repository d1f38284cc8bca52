// Settings: eight bytes; two settings join to the later.
ghost use Rattle.std.specs.Prelude.{◌≡◌, ◌++◌, MatchBool};
ghost use Rattle.number_bytes.specs.BigEndian.{big_endian};
ghost use Rattle.records.specs.Joins.{Before, Later, later_setting, setting_rank};
ghost use Rattle.std.proofs.Common.{length-append, rules, arith};
ghost use Rattle.number_bytes.proofs.BigEndian.{length_big_endian, octets_big_endian, same_from_bytes};
ghost use Rattle.number_bytes.proofs.Octets.{octets_append};
ghost use Rattle.records.specs.ListParts.{split_same};
ghost use Rattle.records.specs.SameValues.{setting_same};
ghost use Rattle.records.specs.LargerLemmas.{larger_comm};
ghost use Rattle.records.specs.SettingJoinLemmas.{same_from_rank};

use crate::joining::Joining;
use crate::kind::RecordKind;
use crate::values::Setting;
use number_bytes::FixedWidth;

impl Setting {
    /// Whether `other` is the later setting: by stamp, then by source, then by word.
    pub fn is_before(self, other: Setting) -> bool
        ensures by_stamp_source_word { MatchBool result (Before self other) (Before self other → ⊥) }
    {
        self < other
    }
}

impl RecordKind for Setting {
    const CODE: u16 = 3;

    const WIDTH: u8 = 8;

    ghost CODE = { 3 };

    ghost WIDTH = { 8 };

    ghost bytes = { λ s. big_endian 4 s.stamp ++ (big_endian 2 s.source ++ big_endian 2 s.word) };

    ghost coded = { Prim.search rules };

    ghost bounded = { Prim.search rules };

    ghost sized = { λ h s. simp (length-append, length_big_endian) };

    ghost octets = { λ h s.
        octets_append (big_endian 4 s.stamp) (big_endian 2 s.source ++ big_endian 2 s.word) (octets_big_endian 4 s.stamp)
        (octets_append (big_endian 2 s.source) (big_endian 2 s.word) (octets_big_endian 2 s.source) (octets_big_endian 2 s.word)) };

    ghost distinct = { λ h a b e.
        let p = a.fits in
        let q = b.fits in
        let stamps = split_same 4 _ _ _ _ (length_big_endian 4 a.stamp) (length_big_endian 4 b.stamp) e in
        let sources = split_same 2 _ _ _ _ (length_big_endian 2 a.source) (length_big_endian 2 b.source) stamps.1 in
        setting_same a b
        (same_from_bytes 4 a.stamp b.stamp p.0 q.0 stamps.0)
        (same_from_bytes 2 a.source b.source p.1 q.1 sources.0)
        (same_from_bytes 2 a.word b.word p.2 q.2 sources.1) };

    fn write(self, out: &mut [u8]) {
        if out.len() != Self::WIDTH as usize {
            return;
        }
        self.stamp.write(&mut out[0..4]);
        self.source.write(&mut out[4..6]);
        self.word.write(&mut out[6..8]);
    }

    fn read(from: &[u8]) -> Option<Setting> {
        if from.len() != Self::WIDTH as usize {
            return None;
        }
        let (stamp, rest) = from.split_at(4);
        let (source, word) = rest.split_at(2);
        Some(Setting {
            stamp: u32::read(stamp)?,
            source: u16::read(source)?,
            word: u16::read(word)?,
        })
    }
}

impl Joining for Setting {
    ghost joined = { later_setting };

    ghost idempotent = { Prim.search rules };

    ghost commutative = { larger_comm setting_rank same_from_rank };

    ghost associative = { Prim.search rules };

    fn join(self, other: Setting) -> Setting
        ensures joins { result ≡ later_setting self other }
        ensures the_later { Later self other result }
    {
        self.max(other)
    }
}
