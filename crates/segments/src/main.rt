// The program that lists the messages of the segment on standard input, at most 65,536 bytes: where each starts and ends, a line each, and how the reading ended.
#![tactic(auto)]

use printing::{Page, rows_read};
use segment::{RANGE_END, RANGE_STRIDE};
use spec::answers::Stopped;
use spec::refusals::Refusal;
use std::io;
use std::io::{Read, Write};

// The longest segment.
const LONGEST: usize = 65536;

// The buffer of the input: the longest segment, and one byte by which a longer one is known.
const INPUT: usize = LONGEST + 1;

// The room for ranges: a message takes a byte at least, as it has a length.
const ROOM: usize = LONGEST * RANGE_STRIDE;

// The characters of a line: two numbers of five digits at most, the space between them, and the line end.
const LINE: usize = 12;

// The characters of the listing. The front is no message, so that there is room for the last line, which is another.
const OUTPUT: usize = LONGEST * LINE;

// Fills the buffer from the input, as far as there is any: how many bytes it has then. Each read is offered all that is left of the buffer, since an input that
// keeps the bounds of packets drops what of a packet a shorter read does not take; `read_to_end` begins with short ones.
fn read_input<R: Read>(input: &mut R, buf: &mut [u8]) -> io::Result<usize> {
    let mut have = 0;
    // an iteration that goes on reads a byte at least
    for _ in 0..buf.len() {
        if buf.len() <= have {
            return Ok(have);
        }
        let more = input.read(&mut buf[have..])?;
        if more == 0 {
            return Ok(have);
        }
        have += more;
    }
    Ok(have)
}

// What reading the segment answers, which is the first `have` bytes of the buffer. One that fills the buffer is too long, and is not read.
fn read_segment(buf: &[u8], have: usize, room: &mut [u64]) -> Result<usize, Stopped> {
    if buf.len() <= have {
        return Err(Stopped {
            refusal: Refusal::TooLarge,
            count: 0,
            place: 0,
        });
    }
    segment::read(&buf[..have], room)
}

fn main(rt: HostRuntime) -> io::Result<()> {
    let mut buf = [0u8; INPUT];
    // asked for before anything is read, so that a lack of memory is told at once and no input is lost
    let mut room = vec![in rt.alloc(); 0u64; ROOM]?;
    let mut out = vec![in rt.alloc(); 0u8; OUTPUT]?;
    let have = read_input(&mut rt.stdin(), &mut buf)?;
    let read = read_segment(&buf, have, &mut room);
    let mut page = Page::new(&mut out);
    page.put_lines(
        read.into(),
        rows_read(read, &room, RANGE_STRIDE),
        RANGE_END,
        b'\n',
    );
    page.put_byte(b'\n');
    // the line end before the first line is for a header, and there is none
    match page.written() {
        [_, lines @ ..] => rt.stdout().write_all(lines),
        [] => Ok(()),
    }
}
