/// A walk met what good order forbids.
#[derive(Clone, Copy, PartialEq, Eq, Debug)]
pub struct OutOfOrder;
