// The verbs on a schema alone: `schema` and `lookup`.
use crate::fail::Fail;
use crate::room::Room;
use crate::words::Words;
use printing::Page;
use schema::BadEntry;
use spec::columns::{ENTRY_REPEATED, ENTRY_STRIDE};
use std::fmt::Write;

// `schema SCHEMA`: `ok` or `refused 9 at I`.
pub fn schema(words: &mut Words, room: &mut Room, page: &mut Page) -> Result<(), Fail> {
    let schema = words.schema(&mut room.numbers)?;
    words.end()?;
    match schema::check(schema.types, schema.numbers) {
        Ok(()) => page.put_text(b"ok"),
        Err(BadEntry { index }) => write!(page, "refused 9 at {index}")?,
    }
    Ok(())
}

// `lookup SCHEMA OWNER NUMBER`: the entry's index or `none`. A lookup ignores `repeated`, and an entry has only yes or no there, so any number is taken: one
// above 1 is made 1.
pub fn lookup(words: &mut Words, room: &mut Room, page: &mut Page) -> Result<(), Fail> {
    let schema = words.schema(&mut room.numbers)?;
    let owner = words.number()?;
    let number = words.last_number()?;
    for entry in schema.numbers.chunks_exact_mut(ENTRY_STRIDE) {
        entry[ENTRY_REPEATED] = entry[ENTRY_REPEATED].min(1);
    }
    match entries::lookup_numbers(schema.numbers, owner, number) {
        Some(index) => write!(page, "{index}")?,
        None => page.put_text(b"none"),
    }
    Ok(())
}
