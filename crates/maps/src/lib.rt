//! The calls on one map of a pool, each proved against the plain machine.
//!
//! Nodes and book are two parameters of each, by the project's rule: the caller owns both, and lends the nodes anew at
//! each call.

#![tactic(auto)]

mod calls;
mod questions;
mod row;

pub use calls::{clear, put, remove};
pub use questions::{count, free, look, next};
