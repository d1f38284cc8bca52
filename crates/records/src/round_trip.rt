// Writing and reading as one, over any kind: what is written is read back.
ghost use Rattle.records.specs.RoundTrip.{ReadsBack, Refuses};

use crate::kind::RecordKind;

/// Writes a record into `room` and reads it back from there; `None` where `room` has not the kind's width.
pub fn write_and_read<V: RecordKind>(value: V, room: &mut [u8]) -> Option<V>
    ensures reads_back { ReadsBack (V.RecordKind) value room.old room.new result }
    ensures other_length_refused { Refuses (V.RecordKind) room.old room.new result }
{
    value.write(room);
    V::read(room)
}
