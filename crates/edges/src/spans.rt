// Readings with dropped spans, by calls that case lines do not make: under entries that are numbers, under tables, and into rooms that end within a record.
use crate::rooms::{PATTERN, RECORDS};
use crate::schemas::{ENTRIES, SCHEMA_A, TYPES};
use printing::Page;
use schema::layout::{INFO, KEYS};
use spec::Mode;
use spec::columns::STRIDE;
use std::fmt;
use std::fmt::Write;

// The int32 150; a group, in which there are a group that ends under another number and a field; an empty packed field, whose length has two bytes; a
// message that has a group and the uint32 5.
const BYTES: [u8; 18] = [
    0x08, 0x96, 0x01, 0x33, 0x0b, 0x14, 0x08, 0x01, 0x34, 0x22, 0x80, 0x00, 0x1a, 0x04, 0x0b, 0x0c,
    0x08, 0x05,
];

// The room: six records, and one more.
const ROOM: usize = 7 * STRIDE;

// The rooms that are tried in turn: of one record, and one number more each time, to three. In each the next record has no room.
const FIRST: usize = STRIDE;

const LAST: usize = 3 * STRIDE;

// A room for all six records, and one that ends within the last.
const ALL: usize = 6 * STRIDE;

const WITHIN_LAST: usize = ALL - 1;

// The reading under numbers, into the first `n` numbers of a room that is made of the pattern; all of it is watched.
fn put_read(mode: Mode, n: usize, page: &mut Page) -> fmt::Result {
    let mut room = [PATTERN; ROOM];
    if let Some(part) = room.get_mut(..n) {
        let entries = &ENTRIES.as_flattened()[..SCHEMA_A];
        let read = read::read_as(mode, TYPES, entries, &BYTES, part);
        page.put_reading(read, &room, STRIDE, RECORDS, PATTERN);
    }
    Ok(())
}

// The same under the tables of the schema.
fn put_prepared(mode: Mode, n: usize, page: &mut Page) -> fmt::Result {
    let mut keys = [0u64; KEYS];
    let mut info = [0u8; INFO];
    let mut room = [PATTERN; ROOM];
    let _ = schema::tables(
        TYPES,
        &ENTRIES.as_flattened()[..SCHEMA_A],
        &mut keys,
        &mut info,
    );
    if let Some(part) = room.get_mut(..n) {
        let read = read::read_prepared_as(mode, &keys, &info, &BYTES, part);
        page.put_reading(read, &room, STRIDE, RECORDS, PATTERN);
    }
    Ok(())
}

// A line: what both calls say of a room.
fn span_line(name: &str, mode: Mode, n: usize, page: &mut Page) -> fmt::Result {
    write!(page, "{name} {n}: read ")?;
    put_read(mode, n, page)?;
    write!(page, " | prepared ")?;
    put_prepared(mode, n, page)?;
    writeln!(page)
}

// The rooms in turn, one for three records, one that ends within the last, and one for all; and the same bytes where no spans are asked for.
pub fn spans(page: &mut Page) -> fmt::Result {
    let asked = Mode { dropped: true };
    for n in FIRST..=LAST {
        span_line("spans", asked, n, page)?;
    }
    span_line("spans", asked, WITHIN_LAST, page)?;
    span_line("spans", asked, ALL, page)?;
    span_line("unasked", Mode { dropped: false }, ALL, page)
}
