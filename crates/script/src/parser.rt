//! From a line of a script to what it says.
ghost use Rattle.std.specs.Prelude.{◌≡◌};
ghost use Rattle.script.specs.Forms.{form, said};
ghost use Rattle.script.specs.Readings.{given};

use crate::bad_line::BadLine;
use crate::call::Call;
use crate::words::Words;
use std::str;

impl Words<'_> {
    /// The call of a name, with its fields.
    fn call(&mut self, name: &[u8]) -> Option<Call>
        ensures reads_the_call { form name.now self.old ≡ given result self.new }
    {
        match str::from_utf8(name).ok()? {
            "open" => Some(Call::Open {
                nodes: self.nodes()?,
            }),
            "put" => Some(Call::Put {
                shelf: self.shelf()?,
                key: self.key()?,
                record: self.record()?,
            }),
            "look" => Some(Call::Look {
                shelf: self.shelf()?,
                key: self.key()?,
            }),
            "remove" => Some(Call::Remove {
                shelf: self.shelf()?,
                key: self.key()?,
            }),
            "next" => Some(Call::Next {
                shelf: self.shelf()?,
                bound: self.bound()?,
            }),
            "list" => Some(Call::List {
                shelf: self.shelf()?,
            }),
            "clear" => Some(Call::Clear {
                shelf: self.shelf()?,
            }),
            "count" => Some(Call::Count {
                shelf: self.shelf()?,
            }),
            "free" => Some(Call::Free),
            _ => None,
        }
    }
}

/// What a line says, which comes without its line feed: a call, or nothing where no word stands on it.
pub fn parse(line: &[u8]) -> Result<Option<Call>, BadLine>
    ensures is_what_the_line_says { result ≡ said line.now }
{
    let mut words = Words::of(line);
    let Some(name) = words.next() else {
        return Ok(None);
    };
    let call = words.call(name).ok_or(BadLine)?;
    match words.next() {
        None => Ok(Some(call)),
        Some(_) => Err(BadLine),
    }
}
