/// Why opening is refused.
#[derive(Clone, Copy, PartialEq, Eq, Debug)]
pub enum OpenRefusal {
    TooManyNodes,
}

/// Why a question answered from the book alone is refused.
#[derive(Clone, Copy, PartialEq, Eq, Debug)]
pub enum CountRefusal {
    NoSuchShelf,
}

/// Why a call that walks a tree is refused.
#[derive(Clone, Copy, PartialEq, Eq, Debug)]
pub enum WalkRefusal {
    NoSuchShelf,
    OutOfOrder,
}

/// Why a call that may need free nodes is refused.
#[derive(Clone, Copy, PartialEq, Eq, Debug)]
pub enum GrowRefusal {
    NoSuchShelf,
    OutOfOrder,
    TooFewNodes,
}
