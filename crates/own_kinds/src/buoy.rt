ghost use Rattle.own_kinds.specs.Kinds.{buoy_bit};
ghost use Rattle.std.proofs.Common.{sym, ◌∙◌, rules};
ghost use Rattle.keys.specs.Binary.{binary_ext, binary_bits_of};
ghost use Rattle.own_kinds.specs.Same.{buoy_same};

use crate::values::Buoy;
use keys::{KeyKind, bits_write_their_number, number_bit};

/// Buoys as keys: 20 places, a buoy's bits are those of its number.
impl KeyKind for Buoy {
    const CODE: u16 = 200;

    const PLACES: u8 = 20;

    ghost CODE = { 200 };

    ghost PLACES = { 20 };

    ghost bit = { buoy_bit };

    ghost coded = { Prim.search rules };

    ghost places_bounded = { Prim.search rules };

    ghost zero_beyond = { Prim.search rules };

    // two buoys with the same bits have the same number, which is what those bits write, so they are the same
    ghost same_bits = { λ a b bits.
        buoy_same a b
        (sym (binary_bits_of 20 a.number a.fits) ∙ binary_ext 20 (buoy_bit a) (buoy_bit b) bits ∙ binary_bits_of 20 b.number b.fits) };

    fn bit_at(self, place: u8) -> bool {
        number_bit(u64::from(self.number), Self::PLACES, place)
    }

    fn from_number(n: u64) -> Option<Buoy> {
        bits_write_their_number();
        if n >> Self::PLACES != 0 {
            return None;
        }
        Some(Buoy { number: n as u32 })
    }

    // As a word's, but for the field: no more than a line to share.
    fn number(self) -> u64 {
        bits_write_their_number();
        self.number.into()
    }
}
