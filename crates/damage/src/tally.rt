use causes::Cause;
use keys::Word;
use records::Mark;
use runs::Reply;
use std::fmt;

/// How often a call was answered in each way.
#[derive(Clone, Copy, Default)]
pub(crate) struct Tally {
    done: u32,
    no_such_shelf: u32,
    out_of_order: u32,
    too_few_nodes: u32,
    /// Refusals that yet changed the pool; none but those for want of order may.
    changed: u32,
}

impl Tally {
    /// Counts a reply, and whether the call left the pool the same.
    pub(crate) fn add(&mut self, reply: Reply<Word, Mark>, same: bool) {
        match reply {
            Ok(_) => count(&mut self.done),
            Err(cause) => {
                self.add_refusal(cause);
                if !same {
                    count(&mut self.changed);
                }
            }
        }
    }

    fn add_refusal(&mut self, cause: Cause) {
        match cause {
            Cause::NoSuchShelf => count(&mut self.no_such_shelf),
            Cause::OutOfOrder => count(&mut self.out_of_order),
            Cause::TooFewNodes => count(&mut self.too_few_nodes),
            _ => {}
        }
    }
}

impl fmt::Display for Tally {
    fn fmt<W: fmt::Write>(&self, f: &mut fmt::Formatter<W>) -> fmt::Result {
        write!(
            f,
            "{} ok, {} no such shelf, {} out of order, {} too few nodes, {} refused and changed",
            self.done, self.no_such_shelf, self.out_of_order, self.too_few_nodes, self.changed
        )
    }
}

fn count(number: &mut u32) {
    *number = number.saturating_add(1);
}
