// Lines of standard input, one at a time, in a lent buffer that is longer than any line may be.
ghost use Rattle.std.specs.Prelude.{◌<◌, length, IfSome};

use std::io;
use std::io::Read;

// The most characters of a line.
const LONGEST: usize = 65536;

// What was read and not yet taken: where it starts and ends in the buffer.
#[derive(Clone, Copy)]
pub struct Left {
    pub start: usize,
    pub end: usize,
}

// The first line end between two positions.
fn line_end(buffer: &[u8], from: usize, to: usize) -> Option<usize>
    ensures { IfSome result (λ end. end < length buffer.now) }
{
    let unseen = buffer.get(from..to)?;
    let at = memchr::memchr(b'\n', unseen)?;
    Some(from + at)
}

// The line that stands here. One that is too long, or whose front was dropped, is as an empty one, which is no case either.
fn line_at(buffer: &[u8], start: usize, end: usize, dropped: bool) -> &[u8] {
    match buffer.get(start..end) {
        Some(line) if !dropped && line.len() <= LONGEST => line,
        _ => &[],
    }
}

// Moves what is left, the front of a line, to the front of the buffer, or drops it where it is too long already; whether it was dropped.
fn make_room(buffer: &mut [u8], left: &mut Left) -> bool {
    let Left { start, end } = *left;
    let size = end.saturating_sub(start);
    let long = LONGEST < size;
    left.start = 0;
    left.end = if long { 0 } else { size };
    if !long && 0 < start && start <= end && end <= buffer.len() {
        buffer.copy_within(start..end, 0);
    }
    long
}

// Reads more after what is left: whether any came. All that is free is offered, since an input that keeps the bounds of packets drops what of a packet a shorter
// read does not take.
fn read_more<R: Read>(input: &mut R, buffer: &mut [u8], left: &mut Left) -> io::Result<bool> {
    let Some(free) = buffer.get_mut(left.end..) else {
        return Ok(false);
    };
    let came = input.read(free)?;
    left.end += came;
    Ok(0 < came)
}

// The next line, without its end, of what is left, and of what comes. The last one may end without a line end.
pub fn next_line<'a, R: Read>(
    input: &mut R,
    buffer: &'a mut [u8],
    left: &mut Left,
) -> io::Result<Option<&'a [u8]>> {
    let mut dropped = false;
    // Up to here there is no line end.
    let mut looked = left.start;
    for _ in 0..u64::MAX {
        let Left { start, end } = *left;
        if let Some(at) = line_end(buffer, looked, end) {
            left.start = at + 1;
            return Ok(Some(line_at(buffer, start, at, dropped)));
        }
        if make_room(buffer, left) {
            dropped = true;
        }
        looked = left.end;
        if !read_more(input, buffer, left)? {
            left.end = 0;
            let last = line_at(buffer, 0, looked, dropped);
            let is_line = dropped || 0 < looked;
            return Ok(if is_line { Some(last) } else { None });
        }
    }
    Ok(None)
}
