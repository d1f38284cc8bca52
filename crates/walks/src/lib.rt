//! Questions to one tree: which record a key has, and which entry comes next.
//!
//! That a map stands at a root (`Rooted`) is a premise in each clause, and no invariant of a type: a lent pool may be
//! damaged, and no call may ask that it is not.

#![tactic(auto)]

mod descent;
pub mod inner;
mod lookup;
mod order;
mod sides;
mod splitting;
mod step;
mod turn;

pub use lookup::look;
pub use order::next;
