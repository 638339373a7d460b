// The verbs of segment files: `segread` and `segwrite`. Room and output are watched, as in readings and writings.
use crate::fail::Fail;
use crate::room::Room;
use crate::words::Words;
use crate::{readings, writings};
use printing::{Layout, Page};
use segment::{RANGE_END, RANGE_STRIDE};

const RANGES: Layout = Layout {
    last: RANGE_END,
    first: b' ',
    between: b';',
    within: b'-',
};

// `segread ROOM HEX`: `N COUNT PLACE RANGES`.
pub fn read(words: &mut Words, room: &mut Room, page: &mut Page) -> Result<(), Fail> {
    let most: usize = words.number()?;
    let s = words.last_bytes(&mut room.bytes)?;
    if readings::MOST < most {
        return Err(Fail::BadLine);
    }
    let lent = most * RANGE_STRIDE;
    let list = &mut room.list[..];
    let watched = &mut list[..lent + readings::WATCHED];
    watched.fill(readings::PATTERN);
    let read = segment::read(s, &mut watched[..lent]);
    page.put_reading(read, watched, RANGE_STRIDE, RANGES, readings::PATTERN);
    Ok(())
}

// `segwrite RANGES HEX ROOM`: `N SIZE INDEX OUTHEX`.
pub fn write(words: &mut Words, room: &mut Room, page: &mut Page) -> Result<(), Fail> {
    let ranges = words.ranges(&mut room.list)?;
    let payload = words.bytes(&mut room.bytes)?;
    let most: usize = words.last_number()?;
    if writings::MOST < most {
        return Err(Fail::BadLine);
    }
    let output = &mut room.output[..];
    let watched = &mut output[..most + writings::WATCHED];
    watched.fill(writings::PATTERN);
    let wrote = segment::write(ranges, payload, &mut watched[..most]);
    page.put_writing(wrote, watched, writings::PATTERN);
    Ok(())
}
