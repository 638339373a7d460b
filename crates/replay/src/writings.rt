// The verbs that write a list: `size` and `write`. The output is made of a pattern before the call and watched, as the room is in readings; that of `segwrite`
// (segments) too.
use crate::fail::Fail;
use crate::room::Room;
use crate::words::Words;
use printing::Page;

// What each byte of the output is where nothing is written.
pub const PATTERN: u8 = 0xa5;

// The most bytes of output that a line may name.
pub const MOST: usize = 65536;

// How many bytes more are watched after them.
pub const WATCHED: usize = 64;

// `size SCHEMA RECORDS HEX`: `N SIZE INDEX`.
pub fn size(words: &mut Words, room: &mut Room, page: &mut Page) -> Result<(), Fail> {
    let schema = words.schema(&mut room.numbers)?;
    let list = words.records(&mut room.list)?;
    let payload = words.last_bytes(&mut room.bytes)?;
    let sized = entries::size_numbers(schema.types, schema.numbers, list, payload);
    page.put_written_numbers(sized);
    Ok(())
}

// `write SCHEMA RECORDS HEX ROOM`: `N SIZE INDEX OUTHEX`.
pub fn write(words: &mut Words, room: &mut Room, page: &mut Page) -> Result<(), Fail> {
    let schema = words.schema(&mut room.numbers)?;
    let list = words.records(&mut room.list)?;
    let payload = words.bytes(&mut room.bytes)?;
    let most: usize = words.last_number()?;
    if MOST < most {
        return Err(Fail::BadLine);
    }
    let output = &mut room.output[..];
    let watched = &mut output[..most + WATCHED];
    watched.fill(PATTERN);
    let wrote = entries::write_numbers(
        schema.types,
        schema.numbers,
        list,
        payload,
        &mut watched[..most],
    );
    page.put_writing(wrote, watched, PATTERN);
    Ok(())
}
