ghost use Rattle.std.specs.Prelude.{◌≡◌, ℕ, ◌^◌, ◌<◌, ◌≤◌, Bool};
ghost use Rattle.keys.specs.Bits.{binary};
ghost use Rattle.keys.specs.Kinds.{every_second_bit, interleaved, cell_bit};
ghost use Rattle.keys.specs.Cells.{cells_same};
ghost use Rattle.std.proofs.Common.{rules, arith};

use crate::kind::KeyKind;
use crate::numbers::number_bit;
use crate::values::Cell;

// A row and a column have as many bits each.
const PLACES_OF_HALF: u8 = 16;

const ROW_TOP: u32 = 31;

const COLUMN_TOP: u32 = 30;

// The number that every second bit of `n` writes, sixteen of them, from bit `top` down.
fn gather(n: u32, top: u32) -> u16
    requires from_the_top { (30 ≤ top) × (top ≤ 31) }
    ensures is_every_second_bit { result ≡ every_second_bit n top }
{
    let mut r: u16 = 0;
    for i in 0..PLACES_OF_HALF as u32 {
        r = r * 2 + ((n >> (top - 2 * i)) % 2) as u16;
    }
    r
}

// A row and a column that were gathered from the bits of a number write that number again: a fact, no code.
fn gathered_bits_write_the_number()
    ensures back_again { (n row column : ℕ) → n < 2 ^ 32 → row ≡ every_second_bit n 31 → column ≡ every_second_bit n 30 → binary 32 (interleaved row column) ≡ n }
    ensures none_above { (f : ℕ → Bool) → binary 32 f < 2 ^ 32 }
{}

/// Chart cells: code 2, 32 places, bits of row and column in turn, so that neighbours share prefixes.
impl KeyKind for Cell {
    const CODE: u16 = 2;

    const PLACES: u8 = 2 * PLACES_OF_HALF;

    ghost CODE = { 2 };

    ghost PLACES = { 32 };

    ghost bit = { cell_bit };

    ghost coded = { Prim.search rules };

    ghost places_bounded = { Prim.search rules };

    ghost zero_beyond = { Prim.search rules };

    ghost same_bits = { cells_same };

    fn bit_at(self, place: u8) -> bool {
        if place % 2 == 0 {
            number_bit(self.row.into(), PLACES_OF_HALF, place / 2)
        } else {
            number_bit(self.column.into(), PLACES_OF_HALF, place / 2)
        }
    }

    fn from_number(n: u64) -> Option<Cell> {
        gathered_bits_write_the_number();
        let n = u32::try_from(n).ok()?;
        Some(Cell {
            row: gather(n, ROW_TOP),
            column: gather(n, COLUMN_TOP),
        })
    }
}
