// The program that prints the records of one message on standard input, read under schema A of the rules: at most 65,536 bytes, and room for 1,024 records.
#![tactic(auto)]

use printing::{Page, rows_read};
use spec::answers::Stopped;
use spec::columns::{ENTRY_STRIDE, STRIDE};
use spec::kinds32;
use spec::refusals::Refusal;
use std::io;
use std::io::{Read, Write};

// The longest message.
const LONGEST: usize = 65536;

// The buffer of the input: the longest message, and one byte by which a longer one is known.
const INPUT: usize = LONGEST + 1;

// The room for records.
const ROOM: usize = 1024 * STRIDE;

// The characters of the listing.
const OUTPUT: usize = 65536;

// How many message types schema A has.
const TYPES: u32 = 2;

// Schema A: owner, number, kind, repeated, child of each of its nine entries.
const SCHEMA: [[u32; ENTRY_STRIDE]; 9] = [
    [0, 1, kinds32::INT32, 0, 0],
    [0, 2, kinds32::STRING, 0, 0],
    [0, 3, kinds32::MESSAGE, 0, 1],
    [0, 4, kinds32::SINT32, 1, 0],
    [0, 5, kinds32::FLOAT, 0, 0],
    [0, 7, kinds32::BOOL, 0, 0],
    [1, 1, kinds32::UINT32, 0, 0],
    [1, 2, kinds32::BYTES, 0, 0],
    [1, 3, kinds32::MESSAGE, 0, 1],
];

// Fills the buffer from the input, as far as there is any: how many bytes it has then. Each read is offered all that is left of the buffer, since an input that
// keeps the bounds of packets drops what of a packet a shorter read does not take; `read_to_end` begins with short ones.
fn read_input<R: Read>(input: &mut R, buf: &mut [u8]) -> io::Result<usize> {
    let mut have = 0;
    // an iteration that goes on reads a byte at least
    for _ in 0..buf.len() {
        if buf.len() <= have {
            return Ok(have);
        }
        let more = input.read(&mut buf[have..])?;
        if more == 0 {
            return Ok(have);
        }
        have += more;
    }
    Ok(have)
}

// What reading the message answers, which is the first `have` bytes of the buffer. One that fills the buffer is too long, and is not read.
fn read_message(buf: &[u8], have: usize, room: &mut [u64]) -> Result<usize, Stopped> {
    if buf.len() <= have {
        return Err(Stopped {
            refusal: Refusal::TooLarge,
            count: 0,
            place: 0,
        });
    }
    read::read(TYPES, SCHEMA.as_flattened(), &buf[..have], room)
}

fn main(rt: HostRuntime) -> io::Result<()> {
    // all arrays before any call: those made after one are filled twice
    let mut buf = [0u8; INPUT];
    let mut room = [0u64; ROOM];
    let mut out = [0u8; OUTPUT];
    let have = read_input(&mut rt.stdin(), &mut buf)?;
    let read = read_message(&buf, have, &mut room);
    let mut page = Page::new(&mut out);
    page.put_listing(read.into(), rows_read(read, &room, STRIDE), b'\n');
    page.put_byte(b'\n');
    rt.stdout().write_all(page.written())
}
