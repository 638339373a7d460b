// A tag by its methods.
use printing::Page;
use std::fmt;
use std::fmt::Write;
use wire::wire_format::Tag;

// The largest tag: of a fixed32.
const LARGEST: u32 = 0xffff_fffd;

// A line: the integer, and the field number and wire type that it is.
pub fn tags(page: &mut Page) -> fmt::Result {
    if let Ok(tag) = Tag::new(LARGEST) {
        let number = tag.field_number();
        let wire_type = tag.wire_type().number();
        writeln!(page, "tag {LARGEST} {number} {wire_type}")?;
    }
    Ok(())
}
