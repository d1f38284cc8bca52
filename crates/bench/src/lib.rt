//! A harness for measurements: exports that do one kind of work on a map of words and lamps, many times over, so that a
//! program outside can time it. Proved safe and ending, and no more: what the calls do is proved where they stand.
//! Each export makes its own pool, takes the keys as numbers, and answers a checksum of what it met.

#![tactic(auto)]

mod exports;
mod sums;
mod work;
