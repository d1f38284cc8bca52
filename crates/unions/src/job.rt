/// A tree to be united into another, by the indices of their first nodes.
#[derive(Clone, Copy)]
pub struct Job {
    pub into: u16,
    pub from: u16,
}
