//! Numbers as bytes, the highest byte first.

#![tactic(auto)]

mod fixed;
mod numbers;

pub use fixed::FixedWidth;
pub use numbers::{read_number, write_number};
