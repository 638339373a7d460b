// Copied schema numbers: what the schema check, reading, the list check and the size say of each.
use crate::lists::{PLAIN, put_checked, put_judged};
use crate::rooms::{ROOM, put_read};
use printing::Page;
use spec::answers::Fault;
use spec::columns::ENTRY_STRIDE;
use std::fmt;
use std::fmt::Write;

// How many message types the schemas have.
pub const TYPES: u32 = 2;

// How many numbers the entries of schema A are.
pub const SCHEMA_A: usize = 9 * ENTRY_STRIDE;

// Owner, number, kind, repeated, child of each entry: the nine of schema A, and one more.
pub const ENTRIES: [[u32; ENTRY_STRIDE]; 10] = [
    [0, 1, 5, 0, 0],
    [0, 2, 9, 0, 0],
    [0, 3, 11, 0, 1],
    [0, 4, 17, 1, 0],
    [0, 5, 2, 0, 0],
    [0, 7, 8, 0, 0],
    [1, 1, 13, 0, 0],
    [1, 2, 12, 0, 0],
    [1, 3, 11, 0, 1],
    [1, 4, 13, 0, 0],
];

// The second of three entries says `repeated` 2.
const TWICE: [[u32; ENTRY_STRIDE]; 3] = [[0, 1, 5, 0, 0], [0, 4, 17, 2, 0], [0, 5, 2, 0, 0]];

// A line: what the four calls say of a schema.
fn schema_line(name: &str, numbers: &[u32], page: &mut Page) -> fmt::Result {
    write!(page, "{name} {}: check ", numbers.len())?;
    put_checked(schema::check(TYPES, numbers).map_err(Fault::from), page)?;
    write!(page, " | read ")?;
    put_read(numbers, ROOM, page)?;
    write!(page, " | list ")?;
    put_judged(numbers, PLAIN.as_flattened(), &[], page)?;
    writeln!(page)
}

// The schemas of the first `from` numbers, of one more, and so on to all of them.
fn schema_lines(name: &str, numbers: &[u32], from: usize, page: &mut Page) -> fmt::Result {
    for n in from..=numbers.len() {
        schema_line(name, &numbers[..n], page)?;
    }
    Ok(())
}

// A remainder after no entry, after schema A, and before and after an entry that is bad in itself.
pub fn schemas(page: &mut Page) -> fmt::Result {
    let entries = ENTRIES.as_flattened();
    schema_lines("schema", &entries[..ENTRY_STRIDE], 0, page)?;
    schema_lines("schema", entries, SCHEMA_A, page)?;
    schema_lines("twice", TWICE.as_flattened(), ENTRY_STRIDE, page)
}
