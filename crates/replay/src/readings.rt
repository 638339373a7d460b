// The verbs that read a message: `read`, `readdropped` and `records`. The room of the first two is filled with a pattern before the call. What the call was not
// lent, and what stands after the records that it says it stored, is watched. `segread` (segments) does the same.
use crate::fail::Fail;
use crate::room::Room;
use crate::words::Words;
use printing::{Layout, Page, rows_read};
use spec::Mode;
use spec::columns::{STRIDE, TAG};

// What each number of the room is where nothing is stored.
pub const PATTERN: u64 = 0xa5c3_5a3c_a5c3_5a3c;

// The most records, or ranges, of room that a line may name.
pub const MOST: usize = 4096;

// How many numbers more are watched after them.
pub const WATCHED: usize = 2 * STRIDE;

// How many numbers the room of the listing has: 1,024 records, as the program `records` lends.
const LISTED: usize = 1024 * STRIDE;

const RECORDS: Layout = Layout {
    last: TAG,
    first: b' ',
    between: b';',
    within: b',',
};

// `read SCHEMA ROOM HEX`, and `readdropped SCHEMA ROOM HEX`: `N COUNT PLACE RECORDS`.
pub fn read(
    dropped: bool,
    words: &mut Words,
    room: &mut Room,
    page: &mut Page,
) -> Result<(), Fail> {
    let schema = words.schema(&mut room.numbers)?;
    let most: usize = words.number()?;
    let s = words.last_bytes(&mut room.bytes)?;
    if MOST < most {
        return Err(Fail::BadLine);
    }
    let lent = most * STRIDE;
    let list = &mut room.list[..];
    let watched = &mut list[..lent + WATCHED];
    watched.fill(PATTERN);
    let read = if dropped {
        let mode = Mode { dropped: true };
        entries::read_numbers_as(mode, schema.types, schema.numbers, s, &mut watched[..lent])
    } else {
        entries::read_numbers(schema.types, schema.numbers, s, &mut watched[..lent])
    };
    page.put_reading(read, watched, STRIDE, RECORDS, PATTERN);
    Ok(())
}

// `records SCHEMA HEX`: what the program `records` would print under that schema, with `/` between lines.
pub fn records(words: &mut Words, room: &mut Room, page: &mut Page) -> Result<(), Fail> {
    let schema = words.schema(&mut room.numbers)?;
    let s = words.last_bytes(&mut room.bytes)?;
    let listed = room.list.get_mut(..LISTED).ok_or(Fail::BadLine)?;
    let read = entries::read_numbers(schema.types, schema.numbers, s, listed);
    page.put_listing(read.into(), rows_read(read, listed, STRIDE), b'/');
    Ok(())
}
