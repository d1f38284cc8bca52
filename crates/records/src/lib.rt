//! Kinds of record: what is kept at each key of a map.
//!
//! A maker brings a kind of his own by two traits. `RecordKind` says how a record is written as bytes; `Joining`
//! says what two records of one key join to. All other code is generic over them, and proved from their laws alone.
//! The kinds of this crate are hours, tags, settings and marks, and a pair of any two kinds.

#![tactic(auto)]

mod hours;
mod joining;
mod kind;
mod lamp;
mod mark;
mod pair;
mod round_trip;
mod setting;
mod tags;
mod values;

pub use joining::Joining;
pub use kind::RecordKind;
pub use lamp::{Lamp, lamp_code, lamp_width};
pub use round_trip::write_and_read;
pub use values::{Hours, Mark, Pair, Setting, Tags};
