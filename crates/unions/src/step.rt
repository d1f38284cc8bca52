use crate::job::Job;

/// What is left of a job after one step.
#[derive(Clone, Copy)]
pub enum Step {
    /// Nothing.
    Done,
    /// A job further down.
    Next(Job),
    /// A job on each side.
    Both(Job, Job),
}
