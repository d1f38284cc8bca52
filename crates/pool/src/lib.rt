//! A lent pool of nodes and its book: what they are, good order, and the plain machine that says what calls mean.

#![tactic(auto)]

mod account;
mod book;
mod causing;
mod converting;
pub mod inner;
mod node;
mod opening;
mod outoforder;
mod refusal;
mod rows;
mod shelf;
mod stack;

pub use account::{Account, MOST_NODES};
pub use book::{Book, SHELVES};
pub use node::Node;
pub use opening::{good_order_holds_a_machine, open};
pub use outoforder::OutOfOrder;
pub use refusal::{CountRefusal, GrowRefusal, OpenRefusal, WalkRefusal};
pub use shelf::Shelf;
