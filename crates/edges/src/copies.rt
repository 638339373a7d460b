// Lists that go through an older schema: the three answers of `copy_onward`, the bytes that were written, the records that the older schema read, and the
// bytes that were written again.
use crate::lists::{FAR, HALF};
use crate::rooms::RECORDS;
use crate::{lists, rooms};
use printing::Page;
use spec::columns::{ENTRY_STRIDE, STRIDE};
use spec::{kinds, kinds32};
use std::fmt;
use std::fmt::Write;
use trip::copy_onward;

// The newer schema has one type more than the older.
const NEWER_TYPES: u32 = 3;

const OLDER_TYPES: u32 = 2;

// Type 0: an int32, a string, packed sint32, messages of type 1 and 2. Type 1: a uint32 and a string. Type 2: an int32.
const NEWER: [[u32; ENTRY_STRIDE]; 8] = [
    [0, 1, kinds32::INT32, 0, 0],
    [0, 2, kinds32::STRING, 0, 0],
    [0, 3, kinds32::SINT32, 1, 0],
    [0, 4, kinds32::MESSAGE, 0, 1],
    [0, 5, kinds32::MESSAGE, 0, 2],
    [1, 1, kinds32::UINT32, 0, 0],
    [1, 2, kinds32::STRING, 0, 0],
    [2, 1, kinds32::INT32, 0, 0],
];

// Without the packed field, the message of type 2 and its field, and the string of type 1.
const OLDER: [[u32; ENTRY_STRIDE]; 4] = [
    [0, 1, kinds32::INT32, 0, 0],
    [0, 2, kinds32::STRING, 0, 0],
    [0, 4, kinds32::MESSAGE, 0, 1],
    [1, 1, kinds32::UINT32, 0, 0],
];

// -1 as a sint32.
const MINUS_ONE: u64 = 0xffff_ffff_ffff_ffff;

// An int32, a string, a packed field of 1 and -1, a message of a uint32 and a string, a message of an int32, and two int32 more. The places of their tags are
// none that reading would give: the writer ignores them.
const LIST: [[u64; STRIDE]; 12] = [
    [0, 1, kinds::INT32, 150, 0, 0, FAR],
    [0, 2, kinds::STRING, 0, 0, 2, 1],
    [0, 3, kinds::PACKED_HEAD, 0, 0, 0, HALF],
    [1, 3, kinds::SINT32, 1, 0, 0, 2],
    [1, 3, kinds::SINT32, MINUS_ONE, 0, 0, FAR],
    [0, 4, kinds::MESSAGE, 0, 0, 0, 5],
    [1, 1, kinds::UINT32, 5, 0, 0, FAR],
    [1, 2, kinds::STRING, 0, 2, 4, HALF],
    [0, 5, kinds::MESSAGE, 0, 0, 0, 3],
    [1, 1, kinds::INT32, 7, 0, 0, FAR],
    [0, 1, kinds::INT32, 1, 0, 0, HALF],
    [0, 1, kinds::INT32, 2, 0, 0, 8],
];

// The two strings.
const PAYLOAD: [u8; 4] = [b'h', b'i', b'y', b'o'];

// The first output has the bytes of eleven records, and the second those of ten. The room has more records than the older schema reads.
const FIRST_OUTPUT: usize = 25;

const SECOND_OUTPUT: usize = 23;

const ROOM: usize = 9 * STRIDE;

// The lists that are copied: the first ten records, and one number more each time, up to all.
const TEN: usize = 10 * STRIDE;

// A line: the three answers of a list on its way from the newer schema through the older, and what each of them left in buffers that are made of patterns.
fn copy_line(list: &[u64], page: &mut Page) -> fmt::Result {
    let mut bytes = [lists::PATTERN; FIRST_OUTPUT];
    let mut room = [rooms::PATTERN; ROOM];
    let mut again = [lists::PATTERN; SECOND_OUTPUT];
    let trip = copy_onward(
        NEWER_TYPES,
        NEWER.as_flattened(),
        OLDER_TYPES,
        OLDER.as_flattened(),
        list,
        &PAYLOAD,
        &mut bytes,
        &mut room,
        &mut again,
    );
    write!(page, "copy {}: write ", list.len())?;
    page.put_writing(trip.wrote, &bytes, lists::PATTERN);
    write!(page, " | read ")?;
    page.put_reading(trip.read, &room, STRIDE, RECORDS, rooms::PATTERN);
    write!(page, " | again ")?;
    page.put_writing(trip.again, &again, lists::PATTERN);
    writeln!(page)
}

// Ten records go unharmed. Of eleven the second output is too short, and of twelve the first. The lists between them are bad: they end within a record.
pub fn copies(page: &mut Page) -> fmt::Result {
    let list = LIST.as_flattened();
    for n in TEN..=list.len() {
        copy_line(&list[..n], page)?;
    }
    Ok(())
}
