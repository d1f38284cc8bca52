// The record that is kept of a lamp.
ghost use Rattle.std.specs.Prelude.{◌≡◌};

use crate::kind::RecordKind;
use crate::values::{Hours, Pair, Setting, Tags};

/// The record of a lamp: its hours, its faults and its setting.
pub type Lamp = Pair<Hours, Pair<Tags, Setting>>;

// Two functions of one constant each, since each carries the theorem of its own number.

/// The width of a lamp record in bytes.
pub fn lamp_width() -> u8
    ensures fourteen_bytes { result ≡ 14 }
{
    <Lamp as RecordKind>::WIDTH
}

/// The code of lamp records.
pub fn lamp_code() -> u16
    ensures its_code { result ≡ 563 }
{
    <Lamp as RecordKind>::CODE
}
