//! A run of the console: lines in, answers out.
ghost use Rattle.std.specs.Prelude.{◌≡◌, ℕ, List, [], ◌∷◌, ◌++◌, ◌≢◌};

use crate::store::Store;
use crate::task::Task;
use crate::wording::spoken;
use anyhow::anyhow;
use pool::MOST_NODES;
use runs::Call as PoolCall;
use script::{Answer, BadLine, Call, parse};
use std::io;
use std::io::{BufRead, BufReader};

/// A map of so many keys fills the largest pool.
const MOST_KEYS: u16 = MOST_NODES / 2;

/// Carries out a script to its end, and prints each answer before the next line is read.
pub(crate) fn run(rt: &HostRuntime) -> anyhow::Result<()> {
    let mut input = BufReader::new(rt.alloc(), rt.stdin())?;
    let Ok(store) = Store::open(rt.alloc(), 0)? else {
        return Err(anyhow!("a pool of no nodes was refused"));
    };
    let mut session = Session { rt, store };
    // One buffer for all lines. `split` makes one for each: with it, lines that ask for no answer took two to four times as
    // long.
    let mut line = Vec::new(rt.alloc());
    for number in 1..u64::MAX {
        line.clear();
        if input.read_until(b'\n', &mut line)? == 0 {
            break;
        }
        match parse(without_line_feed(line.as_slice())) {
            Ok(None) => {}
            Ok(Some(call)) => session.carry_out(call)?,
            Err(BadLine) => rt.println(Answer::BadLine(number))?,
        }
    }
    Ok(())
}

// What a line says. The last line of an input may have no line feed.
fn without_line_feed(line: &[u8]) -> &[u8]
    ensures cuts_the_line_feed { (text : List ℕ) → line.now ≡ text ++ (10 ∷ []) → result.now ≡ text }
    ensures keeps_another_line { ((text : List ℕ) → line.now ≢ text ++ (10 ∷ [])) → result.now ≡ line.now }
{
    match line.strip_suffix(b"\n") {
        Some(text) => text,
        None => line,
    }
}

/// Where answers are printed, and the pool that they come from.
#[derive(Drop)]
struct Session<'a> {
    rt: &'a HostRuntime,
    store: Store,
}

impl Session<'_> {
    fn carry_out(&mut self, call: Call) -> io::Result<()> {
        match Task::from(call) {
            Task::Open(nodes) => self.open(nodes),
            Task::List(shelf) => self.list(shelf),
            Task::Play(call) => self.rt.println(spoken(call, self.store.play(&call))),
        }
    }

    /// A pool that is refused leaves the one before it.
    fn open(&mut self, nodes: u32) -> io::Result<()> {
        match Store::open(self.rt.alloc(), nodes)? {
            Ok(opened) => {
                self.store = opened;
                self.rt.println(Answer::Done)
            }
            Err(refusal) => self.rt.println(Answer::Refused(refusal.into())),
        }
    }

    /// Goes from key to key, and tells how many there were.
    fn list(&mut self, shelf: u8) -> io::Result<()> {
        let mut bound = None;
        for count in 0..=MOST_KEYS {
            let next = PoolCall::Next { shelf, bound };
            match spoken(next, self.store.play(&next)) {
                Answer::Entry(Some((key, record))) => {
                    self.rt.println(Answer::Entry(Some((key, record))))?;
                    bound = Some(key);
                }
                Answer::Entry(None) => return self.rt.println(Answer::End(count)),
                refused => return self.rt.println(refused),
            }
        }
        Ok(())
    }
}
