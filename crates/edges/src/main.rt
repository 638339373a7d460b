// The program that makes the calls that case lines do not reach, and prints a line for each. Some calls have no verb: `schema::find`, the methods of a tag,
// the sizes of packed fields by type and of unknown fields, the trip through an older schema, the size of a segment, the segment that is written, cut and
// read, and the records of one message of a segment. Others have one, but a case line has only whole records, ranges and entries: here lists, rooms and
// schema numbers also end within one. An entry with `repeated` 2 is tried too, since the case lines make all calls but the schema check through lent
// entries, where `repeated` is yes or no. The sizes of segments reach the limit, for which no case line is long enough. Of a string step that the pull reader
// refuses, a case line shows the position, and not the place of the broken letter. Dropped spans are asked for under entries that are numbers, and under tables.
// What must be printed stands in the file stdout, derived from the rules: by hand, and the lines of records with oracle/model.py. A remainder of one to six numbers is a broken record: 10 at its index, or at
// the index of a packed head right before it. An earlier fault comes first. Room is as many records, or ranges, as fit whole. A remainder after whole entries
// is a wrong entry count, 9 at 0, before any entry is judged; a search passes over it, and a size counts nothing for it. A remainder after whole ranges is a
// range outside the payload: 10 at its index.
#![tactic(auto)]

mod copies;
mod finds;
mod letters;
mod lists;
mod packed;
mod rooms;
mod schemas;
mod segments;
mod spans;
mod tags;
mod unknowns;

use printing::Page;
use std::io::Write;
use std::{fmt, io};

// The room for the text of all lines.
const TEXT: usize = 16384;

// All lines.
fn put_lines(page: &mut Page) -> fmt::Result {
    lists::lists(page)?;
    rooms::rooms(page)?;
    schemas::schemas(page)?;
    finds::finds(page)?;
    tags::tags(page)?;
    packed::packed(page)?;
    unknowns::unknowns(page)?;
    copies::copies(page)?;
    segments::segments(page)?;
    letters::letters(page)?;
    spans::spans(page)
}

fn main(rt: HostRuntime) -> io::Result<()> {
    let mut out = [0u8; TEXT];
    let mut page = Page::new(&mut out);
    put_lines(&mut page)?;
    rt.stdout().write_all(page.written())
}
