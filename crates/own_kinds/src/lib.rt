//! A maker's own kinds: buoys with numbers of 20 bits as keys, and the charge of a battery as record.
//! docs/KINDS.md walks through this crate.

#![tactic(auto)]

mod buoy;
mod charge;
mod values;

pub use values::{Buoy, Charge};
