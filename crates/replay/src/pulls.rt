// The verb `pull`: the steps of a pull reader, and of the readers that it enters, one after the other, and the answer to each.
use crate::fail::Fail;
use crate::room::Room;
use crate::words::{Words, number};
use printing::Page;
use pull::reader::{enter_once, step_once};
use pull::step::{Ask, Refused, Said};
use spec::limits::MOST_LEVELS;
use std::fmt;
use std::fmt::Write;

// A reader: its bytes, its position in them, and its level.
#[derive(Clone, Copy)]
struct Open<'a> {
    bytes: &'a [u8],
    at: usize,
    level: u32,
}

// The most readers below the one on top: each has a level of its own.
const MOST_BELOW: usize = MOST_LEVELS as usize;

// The reader on top, and those that it was entered from, the outermost first: so many at the front of `below`.
#[derive(Drop)]
struct Readers<'a, 'b> {
    top: Open<'a>,
    below: &'b mut [Open<'a>],
    count: usize,
}

// What a step asks the reader for.
fn ask_of(step: &str) -> Result<Ask, Fail> {
    Ok(match step {
        "tag" => Ask::RawTag,
        "double" => Ask::Double,
        "float" => Ask::Float,
        "int64" => Ask::Int64,
        "uint64" => Ask::Uint64,
        "int32" => Ask::Int32,
        "fixed64" => Ask::Fixed64,
        "fixed32" => Ask::Fixed32,
        "bool" => Ask::Bool,
        "string" => Ask::String,
        "bytes" => Ask::Bytes,
        "uint32" => Ask::Uint32,
        "enum" => Ask::Enum,
        "sfixed32" => Ask::Sfixed32,
        "sfixed64" => Ask::Sfixed64,
        "sint32" => Ask::Sint32,
        "sint64" => Ask::Sint64,
        _ => {
            let tag = step.strip_prefix("skip:").ok_or(Fail::BadLine)?;
            Ask::Skip(number(tag)?)
        }
    })
}

// An answer, `@`, and the position after it.
fn put_said(said: Result<Said, Refused>, at: usize, page: &mut Page) -> fmt::Result {
    match said {
        Ok(Said::Number(n)) => write!(page, "{n}@{at}"),
        Ok(Said::Content { start, end }) => write!(page, "{start}-{end}@{at}"),
        Ok(Said::End) => write!(page, "end@{at}"),
        Err(refused) => write!(page, "r{}@{at}", refused.refusal.number()),
    }
}

impl<'a> Readers<'a, '_> {
    // Puts a reader on top.
    fn push(&mut self, inner: Open<'a>) -> Result<(), Fail> {
        let (outer, count) = (self.top, self.count);
        let place = self.below.get_mut(count).ok_or(Fail::BadLine)?;
        *place = outer;
        self.top = inner;
        self.count = count + 1;
        Ok(())
    }

    // Takes the reader below off the others.
    fn pop(&mut self) -> Option<Open<'a>> {
        let last = self.count.checked_sub(1)?;
        self.count = last;
        self.below.get(last).copied()
    }

    // `enter`: the reader over the content is on top then. A refused one puts no reader on top.
    fn enter(&mut self, page: &mut Page) -> Result<(), Fail> {
        let outer = self.top;
        let entered = enter_once(outer.bytes, outer.at, outer.level);
        if let Ok(Said::Content { start, end }) = entered.said {
            if let Some(bytes) = outer.bytes.get(start..end) {
                self.top.at = entered.at;
                self.push(Open {
                    bytes,
                    at: 0,
                    level: entered.level,
                })?;
            }
        }
        put_said(entered.said, entered.at, page)?;
        Ok(())
    }

    // `leave`: the reader below is on top again.
    fn leave(&mut self, page: &mut Page) -> fmt::Result {
        match self.pop() {
            Some(outer) => {
                self.top = outer;
                write!(page, "left@{}", outer.at)
            }
            None => write!(page, "none@{}", self.top.at),
        }
    }

    // Any other step stays with the reader on top.
    fn step(&mut self, ask: Ask, page: &mut Page) -> fmt::Result {
        let top = &mut self.top;
        let moved = step_once(top.bytes, top.at, top.level, ask);
        top.at = moved.at;
        put_said(moved.said, moved.at, page)
    }
}

// The answers of the steps, with `,` between them.
fn put_steps(steps: &str, readers: &mut Readers, page: &mut Page) -> Result<(), Fail> {
    for (i, step) in steps.split(',').enumerate() {
        if 0 < i {
            page.put_byte(b',');
        }
        match step {
            "enter" => readers.enter(page)?,
            "leave" => readers.leave(page)?,
            _ => readers.step(ask_of(step)?, page)?,
        }
    }
    Ok(())
}

// `pull LEVEL STEPS HEX`.
pub fn pull(words: &mut Words, room: &mut Room, page: &mut Page) -> Result<(), Fail> {
    let level = words.number()?;
    let steps = words.word()?;
    let bytes = words.last_bytes(&mut room.bytes)?;
    if MOST_LEVELS < level {
        return Err(Fail::BadLine);
    }
    let top = Open {
        bytes,
        at: 0,
        level,
    };
    let mut readers = Readers {
        top,
        below: &mut [top; MOST_BELOW],
        count: 0,
    };
    put_steps(steps, &mut readers, page)
}
