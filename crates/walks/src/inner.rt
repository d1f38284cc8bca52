//! Steps of a walk: for the crates that walk trees to change them, not for makers.

pub use crate::descent::{Landing, Parent, leaf_towards};
pub use crate::sides::{Sides, branch_over};
pub use crate::splitting::split_before;
pub use crate::step::{Reach, Step, step_at};
