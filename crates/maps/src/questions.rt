ghost use Rattle.std.specs.Prelude.{◌≡◌, ℕ, ◌<◌, List, [], ◌∷◌, Result, slice_index_or};
ghost use Rattle.maps.specs.Counts.{Counted, FreeTold};
ghost use Rattle.pool.specs.GoodOrder.{empty_row};
ghost use Rattle.pool.specs.Holds.{Holds};
ghost use Rattle.pool.specs.declared.node.Node.{Node};
ghost use Rattle.pool.specs.Machine.{Machine, list_of, record_at, next_of, count_of, free_in};
ghost use Rattle.pool.specs.Promises.{Asked};

use crate::row::row_of;
use keys::KeyKind;
use pool::{Book, CountRefusal, Node, WalkRefusal};
use records::RecordKind;

/// The record at a key of a shelf, or none.
pub fn look<K: KeyKind, V: RecordKind>(
    nodes: &[Node<K, V>],
    book: &Book,
    shelf: u8,
    key: K,
) -> Result<Option<V>, WalkRefusal>
    ensures answers_as_every_machine_held { (join : V → V → V) → Asked (K.KeyKind) join nodes.now book.now (shelf ∷ []) (λ m. record_at (K.KeyKind) join (list_of m shelf) key) result }
{
    let row = row_of(nodes, book, shelf)?;
    Ok(walks::look(nodes, row.root, key)?)
}

/// The least key of a shelf after a bound, or the least of all, with its record.
pub fn next<K: KeyKind, V: RecordKind>(
    nodes: &[Node<K, V>],
    book: &Book,
    shelf: u8,
    bound: Option<K>,
) -> Result<Option<(K, V)>, WalkRefusal>
    ensures answers_as_every_machine_held { (join : V → V → V) → Asked (K.KeyKind) join nodes.now book.now (shelf ∷ []) (λ m. next_of (K.KeyKind) join (list_of m shelf) bound) result }
{
    let row = row_of(nodes, book, shelf)?;
    Ok(walks::next(nodes, row.root, bound)?)
}

// The book's numbers are those of every machine that it holds: a fact, no code.
fn the_book_tells<K: KeyKind, V: RecordKind>(book: &Book)
    ensures keys { (join : V → V → V) (ns : List (Node K V)) (m : Machine K V) (s n : ℕ) → Holds (K.KeyKind) join ns book.now m → s < 8 → n ≡ (slice_index_or book.now.shelves s empty_row).keys → n ≡ count_of (K.KeyKind) (list_of m s) }
    ensures free_nodes { (join : V → V → V) (ns : List (Node K V)) (m : Machine K V) → Holds (K.KeyKind) join ns book.now m → book.now.account.free ≡ free_in (K.KeyKind) m }
{}

/// The number of keys of a shelf, from the book.
pub fn count<K: KeyKind, V: RecordKind>(book: &Book, shelf: u8) -> Result<u16, CountRefusal>
    ensures answers_as_every_machine_held { (join : V → V → V) → Counted (K.KeyKind) join book.now shelf result }
{
    the_book_tells::<K, V>(book);
    let row = book
        .shelves
        .get(shelf as usize)
        .ok_or(CountRefusal::NoSuchShelf)?;
    Ok(row.keys)
}

/// The number of free nodes, from the book.
pub fn free<K: KeyKind, V: RecordKind>(book: &Book) -> u16
    ensures answers_as_every_machine_held { (join : V → V → V) → FreeTold (K.KeyKind) join book.now result }
{
    the_book_tells::<K, V>(book);
    book.account.free
}
