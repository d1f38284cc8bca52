//! Changes to one map in a slice of nodes, in place: for the crates that keep maps, not for makers.
//!
//! A change writes only nodes of its own tree and of the free chain. The tree's first node stays where it
//! is as long as there is a tree, so that nothing that names it has to change.
//!
//! That a map stands at a root (`Rooted`) is a premise in each clause, and no invariant of a type: a lent pool may be
//! damaged, and no call may ask that it is not.

#![tactic(auto)]

mod clearing;
mod fault;
pub mod inner;
mod inserting;
mod removal;
mod removing;
mod seat;

pub use clearing::clear;
pub use fault::InsertFault;
pub use inserting::insert;
pub use removal::Removal;
pub use removing::remove;
