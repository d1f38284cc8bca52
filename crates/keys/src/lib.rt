//! Key kinds: the interface that a maker's keys meet, our own two kinds, and how keys compare.

#![tactic(auto)]

mod cell;
mod compare;
mod kind;
mod numbers;
mod values;
mod word;

pub use compare::{
    comes_before, first_difference, first_difference_decides_order, numbers_tell_keys_apart,
    same_key,
};
pub use kind::KeyKind;
pub use numbers::{bits_write_their_number, number_bit};
pub use values::{Cell, Word};
