ghost use Rattle.std.specs.Prelude.{◌≡◌, ◌<◌, ◌≤◌, ◌++◌, length, drop, slice_set};
ghost use Rattle.pool.specs.Machine.{Machine};
ghost use Rattle.pool.specs.Holds.{Holds};
ghost use Rattle.runs.specs.Runs.{run, told, Runs};

use crate::answer::Reply;
use crate::call::Call;
use crate::playing::play;
use crate::refusal::RunRefusal;
use keys::KeyKind;
use pool::{Book, Node, open};
use records::Joining;

// A function of its own: tried within the loop, where the bound on the offset of `answers[at]` stays open.
fn store<K: Copy, V: Copy>(answers: &mut [Reply<K, V>], at: usize, reply: Reply<K, V>)
    requires within { at < length answers.old }
    ensures stored { answers.new ≡ slice_set answers.old at reply }
{
    answers[at] = reply;
}

// Plays the calls one after the other. Not a zip with `answers.iter_mut()`: tried, and after that loop a proof knows of
// what was written the length alone.
fn play_each<K: KeyKind, V: Joining>(
    nodes: &mut [Node<K, V>],
    book: &mut Book,
    calls: &[Call<K, V>],
    answers: &mut [Reply<K, V>],
)
    requires room { length calls.now ≤ length answers.old }
    ensures as_the_machine { (m : Machine K V) → Holds (K.KeyKind) V.Joining.joined nodes.old book.old m → (answers.new ≡ told (K.KeyKind) V.Joining.joined m calls.now ++ drop (length calls.now) answers.old) × Holds (K.KeyKind) V.Joining.joined nodes.new book.new (run (K.KeyKind) m calls.now) }
{
    for (i, call) in calls.iter().enumerate() {
        store(answers, i, play(nodes, book, call));
    }
}

/// Opens a pool over the lent nodes and plays a list of calls on it: the answers go into the front of `answers`, the
/// rest of which stays. The list is one claim: what is answered, and what the pool then holds, is the plain machine's.
pub fn play_all<K: KeyKind, V: Joining>(
    nodes: &mut [Node<K, V>],
    calls: &[Call<K, V>],
    answers: &mut [Reply<K, V>],
) -> Result<Book, RunRefusal>
    ensures plays_the_list_as_the_machine { Runs (K.KeyKind) V.Joining.joined nodes.old nodes.new calls.now answers.old answers.new result }
{
    if answers.len() < calls.len() {
        return Err(RunRefusal::TooFewAnswers);
    }
    let mut book = open(nodes)?;
    play_each(nodes, &mut book, calls, answers);
    Ok(book)
}
