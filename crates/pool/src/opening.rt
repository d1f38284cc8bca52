ghost use Rattle.std.specs.Prelude.{◌≡◌, ℕ, ◌+◌, ◌<◌, ◌≤◌, List, length};
ghost use Rattle.pool.specs.Slice.{At};
ghost use Rattle.pool.specs.GoodOrder.{GoodOrder};
ghost use Rattle.pool.specs.Machine.{Machine};
ghost use Rattle.pool.specs.Holds.{Holds};
ghost use Rattle.pool.specs.Opening.{Opens};
ghost use Rattle.pool.specs.declared.node.Node.{Node};
ghost use Rattle.pool.specs.declared.node.Node.TheVariants.{Free};
ghost use Rattle.pool.specs.declared.book.Book.{Book};

use crate::account::{Account, MOST_NODES};
use crate::book::{Book, SHELVES};
use crate::node::Node;
use crate::refusal::OpenRefusal;
use crate::shelf::Shelf;
use keys::KeyKind;

// Links every node to the one behind it.
fn link_all<K: Copy, V: Copy>(nodes: &mut [Node<K, V>])
    requires few { length nodes.old ≤ 4096 }
    ensures each_names_the_next { (j : ℕ) → j < length nodes.new → At nodes.new j (Free (j + 1)) }
{
    for (i, node) in nodes.iter_mut().enumerate() {
        *node = Node::Free { next: i as u16 + 1 };
    }
}

/// Opens a pool over the lent nodes: every node is free, and every shelf empty.
pub fn open<K: KeyKind, V: Copy>(nodes: &mut [Node<K, V>]) -> Result<Book, OpenRefusal>
    ensures opens_an_empty_pool { Opens (K.KeyKind) nodes.old nodes.new result }
{
    if nodes.len() > MOST_NODES as usize {
        return Err(OpenRefusal::TooManyNodes);
    }
    link_all(nodes);
    let capacity = nodes.len() as u16;
    Ok(Book {
        account: Account {
            capacity,
            head: 0,
            free: capacity,
        },
        shelves: [Shelf::EMPTY; SHELVES],
    })
}

/// Good order is no more than holding a machine: every slice in good order for its book holds one. A fact, no code.
pub fn good_order_holds_a_machine<K: KeyKind, V: Copy>()
    ensures some_machine { (join : V → V → V) (ns : List (Node K V)) (book : Book) → GoodOrder (K.KeyKind) ns book → (m : Machine K V) × Holds (K.KeyKind) join ns book m }
{}
