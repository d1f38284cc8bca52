ghost use Rattle.maps.specs.Rows.{RowOf};

use pool::{Book, Node, Shelf, WalkRefusal};

/// The row of a shelf, once shelf number and slice length are found right.
pub fn row_of<K: Copy, V: Copy>(
    nodes: &[Node<K, V>],
    book: &Book,
    shelf: u8,
) -> Result<Shelf, WalkRefusal>
    ensures row_or_refusal { RowOf nodes.now book.now shelf result }
{
    let row = book
        .shelves
        .get(shelf as usize)
        .ok_or(WalkRefusal::NoSuchShelf)?;
    if nodes.len() != book.account.capacity as usize {
        return Err(WalkRefusal::OutOfOrder);
    }
    Ok(*row)
}
