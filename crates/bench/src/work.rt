use crate::sums::{add_lamp, lamp_of};
use keys::Word;
use maps::{look, next, put, remove};
use pool::{Book, Node, WalkRefusal};
use records::Lamp;

const SHELF: u8 = 0;

/// One map on lent nodes.
#[derive(Drop)]
pub struct Map<'a> {
    nodes: &'a mut [Node<Word, Lamp>],
    book: Book,
}

impl<'a> Map<'a> {
    /// The map of a pool's first shelf.
    pub fn new(nodes: &'a mut [Node<Word, Lamp>], book: Book) -> Map<'a> {
        Map { nodes, book }
    }

    /// Puts every key with its record, and answers how often that was done.
    pub fn put_all(&mut self, numbers: &[u32]) -> u32 {
        let mut done: u32 = 0;
        for &light in numbers {
            let (key, told) = (Word { light }, lamp_of(light));
            if put(self.nodes, &mut self.book, SHELF, key, told).is_ok() {
                done = done.wrapping_add(1);
            }
        }
        done
    }

    /// Looks for every key, and adds the records found to a checksum. A sum goes in so that no round is like another.
    pub fn look_all(&self, sought: &[u32], before: u32) -> u32 {
        add_each(
            sought,
            before,
            |key| look(self.nodes, &self.book, SHELF, key),
        )
    }

    /// Takes every key out, and adds the records that there were to a checksum.
    pub fn remove_all(&mut self, numbers: &[u32], before: u32) -> u32 {
        add_each(
            numbers,
            before,
            |key| remove(self.nodes, &mut self.book, SHELF, key),
        )
    }

    /// Walks from the first key to the last, and adds the records met to a checksum. There are fewer keys than nodes.
    pub fn walk_all(&self, before: u32) -> u32 {
        let mut sum = before;
        let mut bound: Option<Word> = None;
        for _ in 0..self.nodes.len() {
            let Ok(Some((key, lamp))) = next(self.nodes, &self.book, SHELF, bound) else {
                return sum;
            };
            sum = add_lamp(sum, lamp);
            bound = Some(key);
        }
        sum
    }
}

// Adds the record that a call answers for each key to a checksum, where it answers one.
fn add_each<F: FnMut(Word) -> Result<Option<Lamp>, WalkRefusal>>(
    numbers: &[u32],
    before: u32,
    mut held: F,
) -> u32
    requires always { F.IsAlwaysCallable held }
{
    let mut sum = before;
    for &light in numbers {
        if let Ok(Some(lamp)) = held(Word { light }) {
            sum = add_lamp(sum, lamp);
        }
    }
    sum
}
