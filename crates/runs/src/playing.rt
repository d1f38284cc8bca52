ghost use Rattle.std.specs.Prelude.{◌≡◌};
ghost use Rattle.pool.specs.Machine.{Machine};
ghost use Rattle.pool.specs.Holds.{Holds};
ghost use Rattle.runs.specs.Runs.{said, step};

use crate::answer::{Answer, Reply};
use crate::call::Call;
use keys::KeyKind;
use maps::{clear, count, free, look, next, put, remove};
use pool::{Book, Node};
use records::Joining;

/// Carries out one call.
pub fn play<K: KeyKind, V: Joining>(
    nodes: &mut [Node<K, V>],
    book: &mut Book,
    call: &Call<K, V>,
) -> Reply<K, V>
    ensures answers_and_leaves_as_the_machine { (m : Machine K V) → Holds (K.KeyKind) V.Joining.joined nodes.old book.old m → (result ≡ said (K.KeyKind) V.Joining.joined m call.now) × Holds (K.KeyKind) V.Joining.joined nodes.new book.new (step (K.KeyKind) m call.now) }
{
    match *call {
        Call::Put { shelf, key, told } => {
            put(nodes, book, shelf, key, told)?;
            Ok(Answer::Done)
        }
        Call::Look { shelf, key } => Ok(Answer::Found(look(nodes, book, shelf, key)?)),
        Call::Next { shelf, bound } => Ok(Answer::Entry(next(nodes, book, shelf, bound)?)),
        Call::Remove { shelf, key } => Ok(Answer::Found(remove(nodes, book, shelf, key)?)),
        Call::Clear { shelf } => {
            clear(nodes, book, shelf)?;
            Ok(Answer::Done)
        }
        Call::Count { shelf } => Ok(Answer::Number(count::<K, V>(book, shelf)?)),
        Call::Free => Ok(Answer::Number(free::<K, V>(book))),
    }
}
