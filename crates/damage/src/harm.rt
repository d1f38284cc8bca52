use crate::stock::Pool;
use keys::Word;
use pool::{Account, Book, Node, Shelf};
use records::Mark;

/// One change to a pool in good order.
#[derive(Clone, Copy)]
pub(crate) enum Harm {
    Nothing,
    Node { at: u16, node: Node<Word, Mark> },
    Row { shelf: u8, row: Shelf },
    Account { head: u16, free: u16 },
}

impl Harm {
    /// Does the harm to the nodes or the book.
    pub(crate) fn inflict(self, pool: &mut Pool) {
        match self {
            Harm::Nothing => {}
            Harm::Node { at, node } => {
                if let Some(place) = pool.nodes.get_mut(usize::from(at)) {
                    *place = node;
                }
            }
            Harm::Row { shelf, row } => {
                let mut shelves = pool.book.shelves;
                if let Some(place) = shelves.get_mut(usize::from(shelf)) {
                    *place = row;
                }
                pool.book = Book::from_parts(pool.book.account, shelves);
            }
            Harm::Account { head, free } => {
                if let Some(account) = Account::from_parts(pool.book.account.capacity, head, free) {
                    pool.book.account = account;
                }
            }
        }
    }
}
