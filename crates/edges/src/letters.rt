// The pull reader's place of a broken letter: a case line shows only the position, which stays.
use printing::Page;
use pull::reader::step_once;
use pull::step::{Ask, Moved, Said};
use std::fmt;
use std::fmt::Write;

// A tag, a length, and letters of one, two and three bytes, and of four, of which the last two are missing.
const MESSAGE: [u8; 10] = [0x12, 0, 0x4b, 0xc3, 0xa9, 0xe2, 0x82, 0xac, 0xf0, 0x9f];

// Where the length stands.
const LENGTH: usize = 1;

// The lengths: the content ends after each of the bytes after the length, and beyond the end.
const LENGTHS: u8 = 10;

// What a string step says, and the position then.
fn put_moved(moved: Moved, page: &mut Page) -> fmt::Result {
    let at = moved.at;
    match moved.said {
        Ok(Said::Content { start, end }) => write!(page, "content {start} {end} {at}"),
        Ok(Said::Number(_)) => write!(page, "number"),
        Ok(Said::End) => write!(page, "end"),
        Err(refused) => {
            let number = refused.refusal.number();
            write!(page, "refused {number} {} {at}", refused.place)
        }
    }
}

// A line for each length: how long the content is said to be; its start and end, or the refusal's number and place; the position.
pub fn letters(page: &mut Page) -> fmt::Result {
    for length in 0..LENGTHS {
        let mut bytes = MESSAGE;
        bytes[LENGTH] = length;
        write!(page, "string {length}: ")?;
        put_moved(step_once(&bytes, LENGTH, 0, Ask::String), page)?;
        writeln!(page)?;
    }
    Ok(())
}
