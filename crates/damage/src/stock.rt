use keys::Word;
use maps::put;
use pool::{Book, Node, open};
use records::Mark;
use runs::{Call, Reply, play};

/// How many nodes the stocked pool has.
pub(crate) const NODES: u16 = 16;

/// There is room for one node more, so that the calls may be given a longer slice.
const ROOM: usize = NODES as usize + 1;

/// A pool: its nodes, how many of them the calls are given, and its book.
#[derive(Clone, Copy, PartialEq)]
pub(crate) struct Pool {
    pub(crate) nodes: [Node<Word, Mark>; ROOM],
    // not the nodes' own length: the calls may be given a slice of another one
    length: usize,
    pub(crate) book: Book,
}

impl Pool {
    /// Opens a pool and stocks two of its shelves, one with four keys and one with two.
    pub(crate) fn stocked() -> Option<Pool> {
        let mut nodes = [Node::Free { next: 0 }; ROOM];
        let length = usize::from(NODES);
        let opened = &mut nodes[..length];
        let mut book = open(opened).ok()?;
        for (shelf, light) in [(0, 3), (0, 5), (0, 9), (0, 12), (1, 5), (1, 7)] {
            put(opened, &mut book, shelf, Word { light }, Mark).ok()?;
        }
        Some(Pool {
            nodes,
            length,
            book,
        })
    }

    /// The pool whose calls are given a slice of another length, as far as there is room.
    pub(crate) fn of_length(self, length: u16) -> Pool {
        let length = usize::from(length);
        Pool { length, ..self }
    }

    /// Makes one call.
    pub(crate) fn play(&mut self, call: &Call<Word, Mark>) -> Reply<Word, Mark> {
        let length = self.length.min(self.nodes.len());
        // A copy of the book: two fields of a lent struct are not covered as lent at once.
        let mut book = self.book;
        let reply = play(&mut self.nodes[..length], &mut book, call);
        self.book = book;
        reply
    }
}
