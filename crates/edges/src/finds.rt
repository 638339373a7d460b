// Entries by owner and number: in no entries, and in schema numbers that end within an entry.
use crate::schemas::{ENTRIES, SCHEMA_A};
use printing::Page;
use schema::find;
use spec::columns::ENTRY_STRIDE;
use std::fmt;
use std::fmt::Write;

// The owners 0, 1 and 2 and the numbers 0 to 7: all that schema A has, and others before, between and after them.
const OWNERS: u32 = 3;

const NUMBERS: u32 = 8;

// The schema numbers: schema A, and all but the last number of one entry more.
const WITHIN_LAST: usize = SCHEMA_A + ENTRY_STRIDE - 1;

// A line: how many schema numbers there are, owner and number, and where their entry stands, or `none`.
fn find_line(numbers: &[u32], owner: u32, number: u32, page: &mut Page) -> fmt::Result {
    write!(page, "find {} {owner} {number}", numbers.len())?;
    match find(numbers, owner, number) {
        Some(index) => writeln!(page, " at {index}"),
        None => writeln!(page, " none"),
    }
}

// A line for no entries, and a line for each owner and number.
pub fn finds(page: &mut Page) -> fmt::Result {
    find_line(&[], 0, 1, page)?;
    for owner in 0..OWNERS {
        for number in 0..NUMBERS {
            find_line(&ENTRIES.as_flattened()[..WITHIN_LAST], owner, number, page)?;
        }
    }
    Ok(())
}
