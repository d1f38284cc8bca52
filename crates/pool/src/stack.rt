ghost use Rattle.std.specs.Prelude.{◌≡◌, ℕ, ◌+◌, ◌-◌, ◌<◌, ◌≤◌, List, [], ◌∷◌, ◌++◌, length, None, MatchResult, slice_index_or, slice_set};
ghost use Rattle.std.specs.Option.{option_to_list};
ghost use Rattle.pool.specs.Stacks.{stacked};

use crate::outoforder::OutOfOrder;
use std::marker::Model;

// How many items a stack has room for.
const MOST: usize = 64;

/// What a walk has still to do: at most 64 items, since a tree in order has at most 64 branches above one another. Contracts
/// see the list of the items, the newest first.
// An array with a height beside it: there is no heap, and a vector of fixed room from a further library would be one more
// part to carry.
#[derive(Drop)]
pub struct Stack<T> {
    items: [T; MOST],
    height: usize,
}

impl<T> Model for Stack<T> {
    ghost Value = { List T };

    ghost view = { λ s. stacked s.items s.height };

    ghost invariant = { λ s. (s.height ≤ 64) × (length s.items ≡ 64) };
}

// What a write above the top and a step of the top do to what a stack holds: facts, no code.
fn tops_of_stacks<T: Copy>()
    ensures one_more { (items : List T) (height : ℕ) (item : T) → height < length items → stacked (slice_set items height item) (height + 1) ≡ item ∷ stacked items height }
    ensures one_less { (items : List T) (height : ℕ) (idle : T) → 1 ≤ height → height ≤ length items → stacked items height ≡ slice_index_or items (height - 1) idle ∷ stacked items (height - 1) }
    ensures as_many { (items : List T) (height : ℕ) → height ≤ length items → length (stacked items height) ≡ height }
{}

impl<T: Copy> Stack<T> {
    /// A stack that holds nothing; `idle` stands where no item is yet.
    pub fn new(idle: T) -> Self
        ensures empty { result ≡ [] }
    {
        Stack {
            items: [idle; MOST],
            height: 0,
        }
    }

    /// Puts an item on top; where there are 64 already, nothing changes.
    pub fn push(&mut self, item: T) -> Result<(), OutOfOrder>
        ensures on_top_or_full { MatchResult result (λ _. self.new ≡ item ∷ self.old) (λ _. (64 ≤ length self.old) × (self.new ≡ self.old)) }
        ensures never_over_full { length self.new ≤ 64 }
    {
        tops_of_stacks::<T>();
        if self.height >= MOST {
            return Err(OutOfOrder);
        }
        self.items[self.height] = item;
        self.height += 1;
        Ok(())
    }

    /// Takes the item on top, if there is one.
    pub fn pop(&mut self) -> Option<T>
        ensures from_the_top { self.old ≡ option_to_list result ++ self.new }
        ensures none_of_an_empty_one { result ≡ None → self.new ≡ [] }
        ensures never_over_full { length self.old ≤ 64 }
    {
        tops_of_stacks::<T>();
        self.height = self.height.checked_sub(1)?;
        Some(self.items[self.height])
    }
}
