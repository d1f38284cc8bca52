//! Steps of a change: for the crates that change trees, not for makers.

pub use crate::inserting::join_leaf;
