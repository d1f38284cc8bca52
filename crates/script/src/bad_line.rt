//! The error of a line that spells no call.
ghost use Rattle.std.specs.Prelude.{Some, codes};

use std::error::Error;
use std::fmt;

/// A line has words, and they spell no call.
#[derive(Clone, Copy, PartialEq, Eq, Debug)]
pub struct BadLine;

impl fmt::Display for BadLine {
    ghost output = { λ _. Some (codes "a line spells no call") };

    fn fmt<W: fmt::Write>(&self, f: &mut fmt::Formatter<W>) -> fmt::Result {
        write!(f, "a line spells no call")
    }
}

impl Error for BadLine {}
