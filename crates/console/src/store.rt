//! The pool of maps that the console works on.
ghost use Rattle.std.specs.Prelude.{IfOk};
ghost use Rattle.console.specs.Keeping.{Opened, Plays};

use keys::Word;
use pool::{Book, MOST_NODES, Node, OpenRefusal, open};
use records::Lamp;
use runs::{Call, Reply, play};
use std::alloc::{AllocError, Global};

#[derive(Drop)]
pub(crate) struct Store {
    nodes: Vec<Node<Word, Lamp>>,
    book: Book,
}

impl Store {
    /// A pool of so many nodes, in which every map is empty.
    // Two results and no enum for both errors: a run ends where memory does, by `?`, and a refusal is only printed.
    pub(crate) fn open(heap: Global, count: u32) -> Result<Result<Store, OpenRefusal>, AllocError>
        ensures opens_an_empty_pool { IfOk result (λ opened. Opened count opened) }
    {
        // One node too many is refused as any number above it is, and takes little memory. `as`, since Rust has no `From` of
        // 32 bits for `usize`, and the way by 16 bits has one more conversion, which may fail.
        let count = count.min(u32::from(MOST_NODES) + 1) as usize;
        let mut nodes = vec![in heap; Node::Free { next: 0 }; count]?;
        Ok(open(nodes.as_mut_slice()).map(|book| Store { nodes, book }))
    }

    pub(crate) fn play(&mut self, call: &Call<Word, Lamp>) -> Reply<Word, Lamp>
        ensures plays_as_the_machine { Plays self.old call.now result self.new }
    {
        play(self.nodes.as_mut_slice(), &mut self.book, call)
    }
}
