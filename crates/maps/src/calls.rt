ghost use Rattle.std.specs.Prelude.{[], ◌∷◌};
ghost use Rattle.pool.specs.Machine.{list_of, record_at, put_fits, after_put, after_remove, after_clear};
ghost use Rattle.pool.specs.Promises.{Called, Grown};

use crate::row::row_of;
use keys::KeyKind;
use pool::{Book, GrowRefusal, Node, WalkRefusal};
use records::{Joining, RecordKind};

/// Puts a record at a key of a shelf: joined to the record there, or as a new one.
pub fn put<K: KeyKind, V: Joining>(
    nodes: &mut [Node<K, V>],
    book: &mut Book,
    shelf: u8,
    key: K,
    told: V,
) -> Result<(), GrowRefusal>
    ensures does_as_every_machine_held { Grown (K.KeyKind) V.Joining.joined nodes.old nodes.new book.old book.new (shelf ∷ []) (λ m. put_fits (K.KeyKind) m shelf key) (λ m. tt) (λ m. after_put (K.KeyKind) m shelf key told) result }
{
    let row = row_of(nodes, book, shelf)?;
    let (root, account) = edits::insert(nodes, book.account, row.root, key, told)?;
    book.settle(shelf, Some(root), account);
    Ok(())
}

/// Takes a key and its record out of a shelf, and answers the record, or none.
pub fn remove<K: KeyKind, V: RecordKind>(
    nodes: &mut [Node<K, V>],
    book: &mut Book,
    shelf: u8,
    key: K,
) -> Result<Option<V>, WalkRefusal>
    ensures does_as_every_machine_held { (join : V → V → V) → Called (K.KeyKind) join nodes.old nodes.new book.old book.new (shelf ∷ []) (λ m. record_at (K.KeyKind) join (list_of m shelf) key) (λ m. after_remove (K.KeyKind) m shelf key) result }
{
    let row = row_of(nodes, book, shelf)?;
    let removal = edits::remove(nodes, book.account, row.root, key)?;
    book.settle(shelf, removal.root, removal.account);
    Ok(removal.held)
}

/// Empties a shelf, and gives all its nodes back.
pub fn clear<K: KeyKind, V: RecordKind>(
    nodes: &mut [Node<K, V>],
    book: &mut Book,
    shelf: u8,
) -> Result<(), WalkRefusal>
    ensures does_as_every_machine_held { (join : V → V → V) → Called (K.KeyKind) join nodes.old nodes.new book.old book.new (shelf ∷ []) (λ m. tt) (λ m. after_clear (K.KeyKind) m shelf) result }
{
    let row = row_of(nodes, book, shelf)?;
    let account = edits::clear(nodes, book.account, row.root)?;
    book.settle(shelf, None, account);
    Ok(())
}
