// The messages of a segment: those that are left when it is cut short, and the records of one, which is handed on as a part of the same slice.
#![tactic(auto)]

ghost use Rattle.std.specs.Prelude.{◌≡◌, ◌/◌, length};
ghost use Rattle.spec.specs.Base.{part};
ghost use Rattle.spec.specs.Record.{stride};
ghost use Rattle.spec.specs.Schema.{schema_of};
ghost use Rattle.spec.specs.Reading.{reading, number, place, listed, room_after};
ghost use Rattle.spec.specs.Told.{read_number, read_place, read_count};
ghost use Rattle.messages.specs.Torn.{CutShort, Given, Left};

use spec::answers::{Stopped, Unwritten};

// What the two steps answered.
#[derive(Clone, Copy, Debug, PartialEq, Eq)]
pub struct Steps {
    pub wrote: Result<usize, Unwritten>,
    pub read: Result<usize, Stopped>,
}

// Writes the segment of some ranges of the payload, and reads what is left of it when it is cut at a length. Where the writing is refused there is nothing to read.
pub fn write_cut_read(
    ranges: &[u64],
    payload: &[u8],
    cut: usize,
    out: &mut [u8],
    room: &mut [u64],
) -> Steps
    ensures { CutShort ranges.now payload.now cut out.old room.old result out.new room.new
        × (Given ranges.now payload.now cut out.old room.old
        → Left ranges.now payload.now cut room.old result out.new room.new) }
{
    let wrote = segment::write(ranges, payload, out);
    let size = cut.min(wrote.unwrap_or(0));
    let read = segment::read(&out[..size], room);
    Steps { wrote, read }
}

// The records of the message that stands in `s` from `start` up to `end`: `read` of that part of the same slice. Places are counted from `start`. Of a range that does not
// lie in `s`, what of it does is read.
pub fn read_message(
    types: u32,
    numbers: &[u32],
    s: &[u8],
    start: usize,
    end: usize,
    room: &mut [u64],
) -> Result<usize, Stopped>
    ensures { (read_number result ≡ number (reading (schema_of types numbers.now) (length room.old / stride) (part start end s.now)))
        × (read_place result ≡ place (reading (schema_of types numbers.now) (length room.old / stride) (part start end s.now)))
        × (read_count result ≡ length (listed (reading (schema_of types numbers.now) (length room.old / stride) (part start end s.now))))
        × (room.new ≡ room_after (reading (schema_of types numbers.now) (length room.old / stride) (part start end s.now)) room.old) }
{
    let end = end.min(s.len());
    let start = start.min(end);
    read::read(types, numbers, &s[start..end], room)
}
