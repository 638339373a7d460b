// Readings into rooms of any length: the answer of each, the records that were stored, and whether anything after them has changed.
use crate::schemas::{ENTRIES, SCHEMA_A, TYPES};
use printing::{Layout, Page};
use spec::columns::{STRIDE, TAG};
use std::fmt;
use std::fmt::Write;

// Two records: the int32 150 and the bool 1.
const BYTES: [u8; 5] = [0x08, 0x96, 0x01, 0x38, 0x01];

// What each number of the room is where nothing is stored.
pub const PATTERN: u64 = 0xa5c3_5a3c_a5c3_5a3c;

// The room: four records.
pub const ROOM: usize = 4 * STRIDE;

// How many rooms are tried: of no number, of one, and so on to two records and one number more.
const ROOMS: usize = 2 * STRIDE + 2;

// How the records in a room are printed.
pub const RECORDS: Layout = Layout {
    last: TAG,
    first: b' ',
    between: b' ',
    within: b',',
};

// The reading into the first `n` numbers of a room that is made of the pattern; all of it is watched.
pub fn put_read(numbers: &[u32], n: usize, page: &mut Page) -> fmt::Result {
    let mut room = [PATTERN; ROOM];
    if let Some(part) = room.get_mut(..n) {
        let read = read::read(TYPES, numbers, &BYTES, part);
        page.put_reading(read, &room, STRIDE, RECORDS, PATTERN);
    }
    Ok(())
}

// A line for each room.
pub fn rooms(page: &mut Page) -> fmt::Result {
    for n in 0..ROOMS {
        write!(page, "room {n}: read ")?;
        put_read(&ENTRIES.as_flattened()[..SCHEMA_A], n, page)?;
        writeln!(page)?;
    }
    Ok(())
}
