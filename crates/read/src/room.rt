// Storing records: the one place that knows how a record is laid out in lent room.
ghost use Rattle.std.specs.Prelude.{◌≡◌, ◌+◌, ◌-◌, ◌≤◌, length};
ghost use Rattle.spec.specs.Record.{row, stride};
ghost use Rattle.spec.specs.Reading.{span};
ghost use Rattle.read.specs.Emit.{placed, left, emit};

use spec::refusals::Refusal;
use spec::{Mode, columns, kinds};

// A reader that was refused, with `to` numbers of the room in use, and the place of the fault. A reader that goes on answers how many numbers are in use.
// Both count numbers, and not records, so that no iteration multiplies.
#[derive(Clone, Copy)]
pub struct Stop {
    pub refusal: Refusal,
    pub to: usize,
    pub place: usize,
}

// Where a reader is: `at` in the bytes, with `to` numbers of the room in use.
#[derive(Drop)]
pub struct Spot {
    pub at: usize,
    pub to: usize,
}

// Stores a record from `to` on, where it has room; the place after it. To add a column, change this function, and the definitions of `spec`.
pub(crate) fn put(
    room: &mut [u64],
    to: usize,
    depth: u32,
    number: u64,
    kind: u64,
    value: u64,
    start: usize,
    end: usize,
    tag: usize,
) -> usize
    requires { to + stride ≤ length room.old }
    ensures { (room.new ≡ placed room.old to (row depth number kind value start end tag)) × (result ≡ to + stride) }
{
    room[to] = u64::from(depth);
    room[to + columns::NUMBER] = number;
    room[to + columns::KIND] = kind;
    room[to + columns::VALUE] = value;
    room[to + columns::START] = start as u64;
    room[to + columns::END] = end as u64;
    room[to + columns::TAG] = tag as u64;
    to + columns::STRIDE
}

// What is dropped stands from `tag` to `end`. Where it is asked for, stores a record with that span, or refuses 8 where that has no room; else does nothing.
pub(crate) fn put_span(
    mode: Mode,
    depth: u32,
    number: u64,
    tag: usize,
    end: usize,
    room: &mut [u64],
    from: usize,
) -> Result<usize, Stop>
    requires { (tag ≤ end) × (from ≤ length room.old) }
    ensures { left result room.new ≡ emit room.old from (span mode depth number tag (end - tag)) }
{
    if mode.dropped {
        if room.len() - from < columns::STRIDE {
            return Err(Stop {
                refusal: Refusal::NoRoom,
                to: from,
                place: tag,
            });
        }
        let kind = kinds::DROPPED_SPAN;
        return Ok(put(room, from, depth, number, kind, 0, tag, end, tag));
    }
    Ok(from)
}
