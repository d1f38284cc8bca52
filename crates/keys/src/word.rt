ghost use Rattle.keys.specs.Kinds.{word_bit};
ghost use Rattle.keys.specs.Cells.{words_same};
ghost use Rattle.std.proofs.Common.{rules, arith};

use crate::kind::KeyKind;
use crate::numbers::bits_write_their_number;
use crate::values::Word;

/// Words: code 1, 32 places, the number of a word is the light's own.
impl KeyKind for Word {
    const CODE: u16 = 1;

    const PLACES: u8 = 32;

    ghost CODE = { 1 };

    ghost PLACES = { 32 };

    ghost bit = { word_bit };

    ghost coded = { Prim.search rules };

    ghost places_bounded = { Prim.search rules };

    ghost zero_beyond = { Prim.search rules };

    ghost same_bits = { words_same };

    fn bit_at(self, place: u8) -> bool {
        // Not by `number_bit`: with it a put took 5 percent longer.
        if place < Self::PLACES {
            (self.light >> (31 - place as u32)) % 2 == 1
        } else {
            false
        }
    }

    fn from_number(n: u64) -> Option<Word> {
        bits_write_their_number();
        let light = u32::try_from(n).ok()?;
        Some(Word { light })
    }

    fn number(self) -> u64 {
        bits_write_their_number();
        self.light.into()
    }
}
