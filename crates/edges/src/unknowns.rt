// Sizes of unknown fields: of lists that end after a record and within one.
use crate::lists::{FAR, HALF};
use printing::Page;
use sizes::unknown_fields_size;
use spec::columns::STRIDE;
use spec::kinds::{
    GROUP_START, INT32, PACKED_HEAD, UNKNOWN_BYTES, UNKNOWN_FIXED32, UNKNOWN_FIXED64,
    UNKNOWN_VARINT,
};
use spec::limits;
use std::fmt;
use std::fmt::Write;

// Numbers of fields: the largest that a message may have, the largest whose tag has 64 bits, the next, and the largest of all.
const LARGEST_FIELD: u64 = limits::LARGEST_NUMBER as u64;

const LAST_OF_64_BITS: u64 = 0x1fff_ffff_ffff_ffff;

const FIRST_ABOVE: u64 = 0x2000_0000_0000_0000;

const LARGEST: u64 = 0xffff_ffff_ffff_ffff;

// How long a content must be to take what is left of the limit: 321 bytes are taken before it, and six by its tag and its length.
const LEFT: u64 = limits::LIMIT - 321 - 6;

// First the four kinds: a varint of two bytes, a fixed64 with a tag of two bytes, contents of 127, of 128 and of no bytes (it ends before it starts),
// and a fixed32. Then kinds that count nothing: a known one, the last before the four, and the first after them; and a varint at depth 3, which counts as
// at depth 0. Then varints with the four numbers. Then the content that takes what is left of the limit, and a varint that is too much.
// The places of their tags count nothing.
const LIST: [[u64; STRIDE]; 16] = [
    [0, 1, UNKNOWN_VARINT, 150, 0, 0, FAR],
    [0, 16, UNKNOWN_FIXED64, 7, 0, 0, 1],
    [0, 1, UNKNOWN_BYTES, 0, 2, 129, HALF],
    [0, 1, UNKNOWN_BYTES, 0, 2, 130, FAR],
    [0, 1, UNKNOWN_BYTES, 0, 5, 4, 3],
    [0, 15, UNKNOWN_FIXED32, 7, 0, 0, 4],
    [0, 1, INT32, 150, 0, 0, FAR],
    [0, 1, PACKED_HEAD, 0, 0, 0, HALF],
    [0, 1, GROUP_START, 0, 0, 0, FAR],
    [3, 1, UNKNOWN_VARINT, 0, 0, 0, 6],
    [0, LARGEST_FIELD, UNKNOWN_VARINT, 0, 0, 0, 7],
    [0, LAST_OF_64_BITS, UNKNOWN_VARINT, 0, 0, 0, FAR],
    [0, FIRST_ABOVE, UNKNOWN_VARINT, 0, 0, 0, HALF],
    [0, LARGEST, UNKNOWN_VARINT, 0, 0, 0, 2],
    [0, 1, UNKNOWN_BYTES, 0, 0, LEFT, FAR],
    [0, 1, UNKNOWN_VARINT, 0, 0, 0, HALF],
];

// A line for no numbers of the list, for one, for two, and so on to all of them: how many there are, and their size.
pub fn unknowns(page: &mut Page) -> fmt::Result {
    let list = LIST.as_flattened();
    for n in 0..=list.len() {
        write!(page, "unknown {n}: ")?;
        page.put_sized(unknown_fields_size(&list[..n]));
        writeln!(page)?;
    }
    Ok(())
}
