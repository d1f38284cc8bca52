// The keys. A ghost field says that each number fits its bits, so that the laws hold of every value.
// These structs stand alone in their file: what a ghost field cites may not name the struct again.
ghost use Rattle.std.specs.Prelude.{◌^◌, ◌<◌};

/// A light by its number.
#[derive(Clone, Copy, PartialEq, Eq, Debug)]
pub struct Word {
    pub light: u32,
    ghost fits: { light < 2 ^ 32 },
}

/// A cell of the chart, by row and column.
#[derive(Clone, Copy, PartialEq, Eq, Debug)]
pub struct Cell {
    pub row: u16,
    pub column: u16,
    ghost fits: { (row < 2 ^ 16) × (column < 2 ^ 16) },
}
