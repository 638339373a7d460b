// Lists that end within a record: what the list check, the size and the writing say of each.
use crate::schemas::{ENTRIES, SCHEMA_A, TYPES};
use printing::Page;
use spec::answers::Fault;
use spec::columns::STRIDE;
use std::fmt;
use std::fmt::Write;

// Where a list begins to tell: after a record, within the second, and after two.
const ONE: usize = STRIDE;

const WITHIN_SECOND: usize = STRIDE + 1;

const TWO: usize = 2 * STRIDE;

// Places of tags, which all three calls ignore: the largest number, and one of a bit alone. Others are small, and none is where a tag would be.
pub const FAR: u64 = 0xffff_ffff_ffff_ffff;

pub const HALF: u64 = 0x8000_0000_0000_0000;

// Two fields of int32.
pub const PLAIN: [[u64; STRIDE]; 2] = [[0, 1, 5, 150, 0, 0, FAR], [0, 1, 5, 7, 0, 0, 3]];

// A message head, and a field of it.
const MESSAGE: [[u64; STRIDE]; 2] = [[0, 3, 11, 0, 0, 0, HALF], [1, 1, 13, 5, 0, 0, FAR]];

// An int32, a packed head, and two elements of it.
const PACKED: [[u64; STRIDE]; 4] = [
    [0, 1, 5, 1, 0, 0, 9],
    [0, 4, 20, 0, 0, 0, FAR],
    [1, 4, 17, 1, 0, 0, HALF],
    [1, 4, 17, 3, 0, 0, 1],
];

// An int32, a string of the payload's first byte, and another int32.
const STRING: [[u64; STRIDE]; 3] = [
    [0, 1, 5, 150, 0, 0, FAR],
    [0, 2, 9, 0, 0, 1, FAR],
    [0, 1, 5, 7, 0, 0, HALF],
];

// Two packed heads, and an element of the second.
const HEADS: [[u64; STRIDE]; 3] = [
    [0, 4, 20, 0, 0, 0, HALF],
    [0, 4, 20, 0, 0, 0, 1],
    [1, 4, 17, 1, 0, 0, FAR],
];

// A payload that is no UTF-8.
const PAYLOAD: [u8; 1] = [0xff];

// What each byte of the output is where nothing is written.
pub const PATTERN: u8 = 0xa5;

// The output of a writing: longer than any of the lists takes.
const OUTPUT: usize = 64;

// The number and the index of a check, of a list or of a schema.
pub fn put_checked(checked: Result<(), Fault>, page: &mut Page) -> fmt::Result {
    match checked {
        Ok(()) => write!(page, "0 0"),
        Err(fault) => write!(page, "{} {}", fault.refusal.number(), fault.index),
    }
}

// The list check and the size of a list under these entries.
pub fn put_judged(numbers: &[u32], list: &[u64], payload: &[u8], page: &mut Page) -> fmt::Result {
    put_checked(list::check(TYPES, numbers, list, payload), page)?;
    write!(page, " | size ")?;
    page.put_written_numbers(write::size(TYPES, numbers, list, payload));
    Ok(())
}

// A line: what the three calls say of a list.
fn list_line(name: &str, list: &[u64], page: &mut Page) -> fmt::Result {
    let entries = &ENTRIES.as_flattened()[..SCHEMA_A];
    write!(page, "{name} {}: check ", list.len())?;
    put_judged(entries, list, &PAYLOAD, page)?;
    let mut output = [PATTERN; OUTPUT];
    let wrote = write::write(TYPES, entries, list, &PAYLOAD, &mut output);
    write!(page, " | write ")?;
    page.put_writing(wrote, &output, PATTERN);
    writeln!(page)
}

// The lists of the first `from` numbers, of one more, and so on to all of them.
fn list_lines(name: &str, list: &[u64], from: usize, page: &mut Page) -> fmt::Result {
    for n in from..=list.len() {
        list_line(name, &list[..n], page)?;
    }
    Ok(())
}

// Each list from where it begins to tell. In the first three a remainder is the fault, or the packed head right before it; in the others a fault before
// the remainder comes first.
pub fn lists(page: &mut Page) -> fmt::Result {
    list_lines("plain", PLAIN.as_flattened(), 0, page)?;
    list_lines("message", MESSAGE.as_flattened(), ONE, page)?;
    list_lines("packed", PACKED.as_flattened(), TWO, page)?;
    list_lines("string", STRING.as_flattened(), WITHIN_SECOND, page)?;
    list_lines("heads", HEADS.as_flattened(), TWO, page)
}
