// The program that answers case lines: one answer line for each line of standard input, written before the next line is waited for. docs/CASES.md has the
// lines. The first word of a line names a call: what the call takes is parsed from the other words, the call is made, and its answer is printed.
#![tactic(auto)]

mod answers;
mod fail;
mod input;
mod leaves;
mod pulls;
mod readings;
mod room;
mod schemas;
mod segments;
mod sizings;
mod words;
mod writings;

use crate::fail::Fail;
use crate::input::{Left, next_line};
use crate::room::Room;
use crate::words::Words;
use printing::Page;
use std::io;
use std::io::{Read, Write};

// The buffer of the input: two of the longest lines.
const INPUT: usize = 131072;

// The longest answer, and its line end.
const ANSWER: usize = 262145;

// Puts the answer to a line on the page.
fn answer(line: &[u8], room: &mut Room, page: &mut Page) -> Result<(), Fail> {
    let mut words = Words::of(str::from_utf8(line)?);
    match words.word()? {
        "vsize" => leaves::vsize(&mut words, page),
        "zdec64" => leaves::zdec64(&mut words, page),
        "zenc32" => leaves::zenc32(&mut words, page),
        "zenc64" => leaves::zenc64(&mut words, page),
        "msgsize" => leaves::msgsize(&mut words, page),
        "encode" => leaves::encode(&mut words, page),
        "tagsize" => leaves::tagsize(&mut words, page),
        "zdec32" => leaves::zdec32(&mut words, page),
        "tag" => leaves::tag(&mut words, page),
        "wire" => leaves::wire(&mut words, page),
        "maketag" => leaves::maketag(&mut words, page),
        "varint64" => leaves::varint64(&mut words, room, page),
        "varint32" => leaves::varint32(&mut words, room, page),
        "utf8" => leaves::utf8(&mut words, room, page),
        "utf8prefix" => leaves::utf8prefix(&mut words, room, page),
        "document" => leaves::document(&mut words, room, page),
        "skip" => leaves::skip(&mut words, room, page),
        "group" => leaves::group(&mut words, room, page),
        "fieldsize" => sizings::fieldsize(&mut words, page),
        "packedsize" => sizings::packedsize(&mut words, room, page),
        "schema" => schemas::schema(&mut words, room, page),
        "lookup" => schemas::lookup(&mut words, room, page),
        "read" => readings::read(false, &mut words, room, page),
        "readdropped" => readings::read(true, &mut words, room, page),
        "records" => readings::records(&mut words, room, page),
        "size" => writings::size(&mut words, room, page),
        "write" => writings::write(&mut words, room, page),
        "pull" => pulls::pull(&mut words, room, page),
        "segread" => segments::read(&mut words, room, page),
        "segwrite" => segments::write(&mut words, room, page),
        _ => Err(Fail::BadLine),
    }
}

// Puts the answer to a line on the page, and its line end.
fn respond(line: &[u8], room: &mut Room, page: &mut Page) -> io::Result<()> {
    match answer(line, room, page) {
        Ok(()) => {}
        Err(Fail::BadLine) => {
            page.at = 0;
            page.put_text(b"bad line");
        }
        Err(Fail::Host(e)) => return Err(e),
    }
    page.put_byte(b'\n');
    Ok(())
}

// Answers each line in order.
fn serve<R: Read, W: Write>(
    input: &mut R,
    output: &mut W,
    buffer: &mut [u8],
    room: &mut Room,
    out: &mut [u8],
) -> io::Result<()> {
    let mut left = Left { start: 0, end: 0 };
    for _ in 0..u64::MAX {
        let Some(line) = next_line(input, buffer, &mut left)? else {
            return Ok(());
        };
        let mut page = Page::new(out);
        respond(line, room, &mut page)?;
        output.write_all(page.written())?;
        output.flush()?;
    }
    Ok(())
}

fn main(rt: HostRuntime) -> io::Result<()> {
    let mut buffer = [0; INPUT];
    let mut room = Room::new();
    let mut out = [0; ANSWER];
    serve(
        &mut rt.stdin(),
        &mut rt.stdout(),
        &mut buffer,
        &mut room,
        &mut out,
    )
}
