//! The language of the console: a line of bytes spells a call, and each call has its answers.
//!
//! | line | answer |
//! |---|---|
//! | `open N` | `ok`, or `refused R` |
//! | `put S K RECORD` | `ok`, or `refused R` |
//! | `look S K` | `record RECORD`, `none`, or `refused R` |
//! | `remove S K` | `record RECORD`, `none`, or `refused R` |
//! | `next S`, `next S K` | `entry K RECORD`: the least key of all, or the least after K; `none`, or `refused R` |
//! | `list S` | `entry K RECORD` for each key in rising order, then `end N`; or `refused R` |
//! | `clear S` | `ok`, or `refused R` |
//! | `count S` | `count N`, or `refused R` |
//! | `free` | `free N` |
//!
//! N is a number of nodes or of keys, S a shelf, K a key, and a record is HOURS TAGS STAMP SOURCE WORD. Numbers
//! are decimal digits alone. Words stand between spaces and tabs, a carriage return at the end of a
//! line is no part of it, and `#` begins a comment. A line with no word says nothing, and any other
//! line is answered `bad line N` with its number.
//!
//! A call is added by a variant and its printing in `call`, a reading in `parser`, and its rows in
//! specs/Forms, specs/Printing and specs/Agreement.

#![tactic(auto)]

mod answer;
mod bad_line;
mod call;
mod fields;
mod number;
mod parser;
mod round_trip;
mod words;

pub use answer::Answer;
pub use bad_line::BadLine;
pub use call::Call;
pub use parser::parse;
pub use round_trip::reread;
