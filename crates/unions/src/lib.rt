//! The union of two maps in a slice of nodes, in place: for the crates that keep maps, not for makers.
//!
//! Both trees are walked together by a list of jobs, each of which unites one tree into another. The result of a job
//! stands at the first node of the tree that is united into, so that nothing that names it has to change. Of two
//! branches at one place the second is given back before their sides are united, so that one free node at the start
//! is always enough.

#![tactic(auto)]

mod job;
mod meeting;
mod step;
mod stepping;
mod uniting;
mod writing;

pub use uniting::unite;
