ghost use Rattle.std.specs.Prelude.{◌≤◌};

use crate::work::Map;
use keys::Word;
use pool::{Book, MOST_NODES, Node, open};
use records::Lamp;
use std::mem::size_of;

// An odd number: a map of k keys has 2 k - 1 nodes.
const ROOM: usize = MOST_NODES as usize - 1;

// The nodes to open for a map of so many keys: just enough and one more, so that a small map has a small pool.
fn nodes_for(keys: usize) -> usize
    ensures within_the_pool { result ≤ 4095 }
{
    keys.saturating_mul(2).min(ROOM)
}

// Builds the map once, and then does a round of work on it `rounds` times; each takes the checksum so far.
fn on_one_map<F: Fn(&mut Map<'_>, u32) -> u32>(numbers: &[u32], rounds: u32, work: F) -> u32
    requires always { F.IsAlwaysCallable work }
{
    let mut pool = [Node::Free { next: 0 }; ROOM];
    let nodes = &mut pool[..nodes_for(numbers.len())];
    let Ok(book) = open(nodes) else { return 0 };
    let mut map = Map::new(nodes, book);
    let mut sum = map.put_all(numbers);
    for _ in 0..rounds {
        sum = work(&mut map, sum);
    }
    sum
}

// Builds a map of each `size` keys of the list from nothing and does some work on it, `rounds` times. A list of many maps
// keeps the processor from learning the way of each.
fn on_each_map<F: Fn(&mut Map<'_>, &[u32], u32) -> u32>(
    numbers: &[u32],
    size: usize,
    rounds: u32,
    work: F,
) -> u32
    requires always { F.IsAlwaysCallable work }
{
    // As above; a helper that lends the nodes to a closure was tried, and no closure that calls a closure in it was proved.
    let mut pool = [Node::Free { next: 0 }; ROOM];
    let nodes = &mut pool[..nodes_for(size)];
    let mut sum: u32 = 0;
    for _ in 0..rounds {
        sum = round(nodes, numbers, size, sum, &work);
    }
    sum
}

// One round over the list.
fn round<F: Fn(&mut Map<'_>, &[u32], u32) -> u32>(
    nodes: &mut [Node<Word, Lamp>],
    numbers: &[u32],
    size: usize,
    before: u32,
    work: &F,
) -> u32
    requires always { F.IsAlwaysCallable work.now }
{
    if size == 0 {
        return before;
    }
    let mut sum = before;
    for own in numbers.chunks(size) {
        let Ok(book) = open(nodes) else { return sum };
        let mut map = Map::new(nodes, book);
        sum = sum.wrapping_add(map.put_all(own));
        sum = work(&mut map, own, sum);
    }
    sum
}

/// Builds a map of each `size` keys of the list from nothing, `rounds` times.
#[unsafe(no_mangle)]
pub extern "C" fn bench_put(numbers: &[u32], size: usize, rounds: u32) -> u32 {
    on_each_map(numbers, size, rounds, |_map, _own, sum| sum)
}

/// Builds the map once, and then tells a record for every key that is told, `rounds` times.
#[unsafe(no_mangle)]
pub extern "C" fn bench_join(numbers: &[u32], told: &[u32], rounds: u32) -> u32 {
    on_one_map(
        numbers,
        rounds,
        |map, sum| sum.wrapping_add(map.put_all(told)),
    )
}

/// Builds the map once, and then looks for every key that is sought, `rounds` times.
#[unsafe(no_mangle)]
pub extern "C" fn bench_look(numbers: &[u32], sought: &[u32], rounds: u32) -> u32 {
    on_one_map(numbers, rounds, |map, sum| map.look_all(sought, sum))
}

/// Builds the map once, and then walks over it from the first key past the last, `rounds` times.
#[unsafe(no_mangle)]
pub extern "C" fn bench_next(numbers: &[u32], rounds: u32) -> u32 {
    on_one_map(numbers, rounds, |map, sum| map.walk_all(sum))
}

/// Builds a map of each `size` keys of the list from nothing and takes them out again, `rounds` times.
#[unsafe(no_mangle)]
pub extern "C" fn bench_put_and_remove(numbers: &[u32], size: usize, rounds: u32) -> u32 {
    on_each_map(
        numbers,
        size,
        rounds,
        |map, own, sum| map.remove_all(own, sum),
    )
}

/// How many bytes a node of such a map takes.
#[unsafe(no_mangle)]
pub extern "C" fn bench_node_size() -> usize {
    size_of::<Node<Word, Lamp>>()
}

/// How many bytes a book takes.
#[unsafe(no_mangle)]
pub extern "C" fn bench_book_size() -> usize {
    size_of::<Book>()
}
