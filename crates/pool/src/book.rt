ghost use Rattle.std.specs.Prelude.{◌≡◌, length};

use crate::account::Account;
use crate::shelf::Shelf;

/// How many maps share a pool.
pub const SHELVES: usize = 8;

/// The book of a pool: its account of the free nodes, and a row for each of its eight shelves.
#[derive(Clone, Copy, PartialEq, Eq, Debug)]
pub struct Book {
    pub account: Account,
    pub shelves: [Shelf; SHELVES],
    ghost eight: { length shelves ≡ 8 },
}
