//! Printing and parsing agree.
ghost use Rattle.std.specs.Prelude.{◌≡◌, IfOk, Ok, Some, string_bytes};
ghost use Rattle.script.specs.Agreement.{Agrees};
ghost use Rattle.script.specs.Forms.{said};

use crate::bad_line::BadLine;
use crate::call::Call;
use crate::parser::parse;
use std::alloc::{AllocError, Global};

/// The theorem, for every call; there is nothing to run.
pub fn lines_say_their_calls()
    ensures lines_say_their_calls { Agrees }
{}

/// A call printed as its line, and the line read again: it says that call.
// A result in a result: the outer one says whether there was memory for the line, the inner one what the line says.
pub fn reread(heap: Global, call: Call) -> Result<Result<Option<Call>, BadLine>, AllocError>
    ensures says_the_call { IfOk result (λ read. read ≡ Ok (Some call)) }
{
    let line = printed(heap, call)?;
    Ok(parse(line.as_bytes()))
}

fn printed(heap: Global, call: Call) -> Result<String, AllocError>
    ensures says_the_call { IfOk result (λ line. said (string_bytes line) ≡ Ok (Some call)) }
{
    format!(in heap; "{call}")
}
