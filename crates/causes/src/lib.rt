//! Why a call is refused: the one place where refusals are numbered.
//!
//! Each layer above has an answer type of its own, which admits only the causes that its calls can
//! give, and turns into a `Cause` where a number or a word is wanted.

#![tactic(auto)]

mod cause;
mod naming;

pub use cause::Cause;
