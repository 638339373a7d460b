// Segments: ranges and rooms that end within a range, sizes at the limit, segments that were cut, and the records of one message.
use crate::rooms::RECORDS;
use crate::schemas::{ENTRIES, SCHEMA_A, TYPES};
use crate::{lists, rooms};
use messages::{read_message, write_cut_read};
use printing::{Layout, Page};
use segment::{RANGE_END, RANGE_STRIDE};
use spec::answers::Unwritten;
use spec::columns::STRIDE;
use std::fmt;
use std::fmt::Write;

// A payload, and ranges of it: two letters, none, five, and one that ends before it starts.
const PAYLOAD: [u8; 6] = [b'a', b'b', b'c', b'd', b'e', b'f'];

const RANGES: [[u64; RANGE_STRIDE]; 4] = [[0, 2], [2, 2], [1, 6], [5, 3]];

// The first three ranges just fill the output.
const OUTPUT: usize = 15;

// A large payload. A message of all of it takes 1,048,579 bytes, and 2,047 such messages leave 1,042,429 bytes of the limit.
const LARGE: usize = 0x10_0000;

const LARGE_END: u64 = LARGE as u64;

// These messages and one more, which takes just what is left where it ends here: its length takes three bytes.
const LARGE_RANGES: usize = 2048;

const FULL_END: u64 = 1_042_426;

// A segment of three messages: `ab`, an empty one and `c`.
const THREE: [u8; 11] = [b'W', b'F', b'M', 1, 0, 2, b'a', b'b', 0, 1, b'c'];

// The same messages as ranges of the payload, and how many numbers there are up to the start of the third.
const THREE_RANGES: [[u64; RANGE_STRIDE]; 3] = [[0, 2], [2, 2], [2, 3]];

const WITHIN_THIRD: usize = 2 * RANGE_STRIDE + 1;

// The room: one range more than there are messages.
const ROOM: usize = 4 * RANGE_STRIDE;

// Where the segment of the three is cut: below the five bytes of its front, at each length from there to its end, and beyond.
const FIRST_CUT: usize = 4;

const LAST_CUT: usize = 12;

// A cut at the end of the three.
const END_CUT: usize = 11;

// A message whose length takes two bytes, a cut between them, and the output that its segment just fills: five bytes of the front, the length, and the message.
const LONG: usize = 128;

const WITHIN_LENGTH: usize = 6;

const LONG_OUTPUT: usize = 5 + 2 + LONG;

// A segment of two messages: the int32 150, and the bool 1.
const TWO: [u8; 12] = [b'W', b'F', b'M', 1, 0, 3, 0x08, 0x96, 0x01, 2, 0x38, 0x01];

// Places beyond the end of that segment.
const BEYOND: usize = 20;

const FURTHER: usize = 30;

// How the ranges in a room are printed.
const PRINTED: Layout = Layout {
    last: RANGE_END,
    first: b' ',
    between: b' ',
    within: b'-',
};

// A line for no number of the ranges, for one, and so on to all of them: the size and the writing of these.
fn ranges_lines(page: &mut Page) -> fmt::Result {
    let ranges = RANGES.as_flattened();
    for n in 0..=ranges.len() {
        let mut output = [lists::PATTERN; OUTPUT];
        let some = &ranges[..n];
        write!(page, "ranges {n}: size ")?;
        page.put_written_numbers(segment::size(some, &PAYLOAD));
        write!(page, " | write ")?;
        let wrote = segment::write(some, &PAYLOAD, &mut output);
        page.put_writing(wrote, &output, lists::PATTERN);
        writeln!(page)?;
    }
    Ok(())
}

// The size of ranges each of which is all of the large payload, but for the last, which ends at `end`. The payload is lent as an array: for a slice its length
// would have to be proved, and the search for that counts it out, which needs more stack than the checker has.
fn size_repeated(end: u64, payload: &[u8; LARGE]) -> Result<usize, Unwritten> {
    let mut ranges = [[0, LARGE_END]; LARGE_RANGES];
    ranges[LARGE_RANGES - 1][RANGE_END] = end;
    segment::size(ranges.as_flattened(), payload)
}

// A line: where the last of the ranges ends, and the size of all. The payload is only measured, so that it may be large, and few ranges reach the limit.
fn large_line(end: u64, page: &mut Page) -> fmt::Result {
    let payload = [0u8; LARGE];
    write!(page, "large {end}: size ")?;
    page.put_written_numbers(size_repeated(end, &payload));
    writeln!(page)
}

// Segments one byte below the limit, just at it, one byte above it, and further above.
fn large_lines(page: &mut Page) -> fmt::Result {
    for end in [FULL_END - 1, FULL_END, FULL_END + 1, LARGE_END] {
        large_line(end, page)?;
    }
    Ok(())
}

// A line for each room up to one number less than the whole: what reading says of it, all of which is watched.
fn room_lines(page: &mut Page) -> fmt::Result {
    for n in 0..ROOM {
        let mut room = [rooms::PATTERN; ROOM];
        let read = segment::read(&THREE, &mut room[..n]);
        write!(page, "segroom {n}: read ")?;
        page.put_reading(read, &room, RANGE_STRIDE, PRINTED, rooms::PATTERN);
        writeln!(page)?;
    }
    Ok(())
}

// A line: some ranges are written, cut and read, with buffers that are made of patterns.
fn cut_line(
    name: &str,
    ranges: &[u64],
    payload: &[u8],
    cut: usize,
    page: &mut Page,
) -> fmt::Result {
    let mut output = [lists::PATTERN; LONG_OUTPUT];
    let mut room = [rooms::PATTERN; ROOM];
    let steps = write_cut_read(ranges, payload, cut, &mut output, &mut room);
    write!(page, "{name} {cut}: write ")?;
    page.put_writing(steps.wrote, &output, lists::PATTERN);
    write!(page, " | read ")?;
    page.put_reading(steps.read, &room, RANGE_STRIDE, PRINTED, rooms::PATTERN);
    writeln!(page)
}

// A line for each cut of the three messages; a cut within a length; and ranges that end within a range, of which nothing is written, so that nothing is left
// to read.
fn cut_lines(page: &mut Page) -> fmt::Result {
    let three = THREE_RANGES.as_flattened();
    for cut in FIRST_CUT..=LAST_CUT {
        cut_line("cut", three, &PAYLOAD, cut, page)?;
    }
    let letters = [b'd'; LONG];
    cut_line("long", &[0, LONG as u64], &letters, WITHIN_LENGTH, page)?;
    cut_line("odd", &three[..WITHIN_THIRD], &PAYLOAD, END_CUT, page)
}

// A line: the records of the message in a range of the two.
fn message_line(start: usize, end: usize, page: &mut Page) -> fmt::Result {
    let mut room = [rooms::PATTERN; rooms::ROOM];
    let entries = &ENTRIES.as_flattened()[..SCHEMA_A];
    let read = read_message(TYPES, entries, &TWO, start, end, &mut room);
    write!(page, "message {start} {end}: read ")?;
    page.put_reading(read, &room, STRIDE, RECORDS, rooms::PATTERN);
    writeln!(page)
}

// The ranges of the two messages as reading gives them, and then ranges that are none of a segment: one that is reversed, one that ends beyond the end, and one
// that is all beyond it.
fn message_lines(page: &mut Page) -> fmt::Result {
    let mut ranges = [0u64; 2 * RANGE_STRIDE];
    let _ = segment::read(&TWO, &mut ranges);
    let [first, first_end, start, end] = ranges.map(|n| n as usize);
    message_line(first, first_end, page)?;
    message_line(start, end, page)?;
    message_line(end, start, page)?;
    message_line(start, BEYOND, page)?;
    message_line(BEYOND, FURTHER, page)
}

// Segments to write, and then segments to read.
pub fn segments(page: &mut Page) -> fmt::Result {
    ranges_lines(page)?;
    large_lines(page)?;
    room_lines(page)?;
    cut_lines(page)?;
    message_lines(page)
}
