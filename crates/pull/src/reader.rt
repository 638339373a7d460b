// The pull reader: it holds a slice, its position and its level, as CodedInputStream does. The functions that take or make one are thin:
// each takes the reader apart, calls a function on the slice and the numbers, and puts the answer together.
// `step_once` and `enter_once` use it with plain parameters.
ghost use Rattle.std.specs.Prelude.{◌≡◌, ◌≤◌, length};
ghost use Rattle.spec.specs.Base.{part};
ghost use Rattle.spec.specs.Pull.{opened, stepped, entered, step_at, reader};
ghost use Rattle.pull.specs.Told.{as_moved, asked};
ghost use Rattle.pull.specs.Reader.{reader_told, opened_told, stepped_told, entered_told, once_told, entering, first_part, opening_number, open_number};

use crate::step::{Ask, Moved, Refused, Said, gate_at, step_at};
use spec::limits;
use spec::refusals::Refusal;

#[derive(Drop)]
pub struct Reader<'a> {
    pub s: &'a [u8],
    pub at: usize,
    pub level: u32,
}

// A reader, or the refusal of too many bytes and a reader over no bytes.
#[derive(Drop)]
pub struct Opened<'a> {
    pub refused: Option<Refusal>,
    pub reader: Reader<'a>,
}

// The answer of a step, and the moved reader.
#[derive(Drop)]
pub struct Stepped<'a> {
    pub said: Result<Said, Refused>,
    pub reader: Reader<'a>,
}

// The answer of entering: the reader over the content, one level up, and the outer one after it.
#[derive(Drop)]
pub struct Entered<'a> {
    pub said: Result<Said, Refused>,
    pub inner: Reader<'a>,
    pub outer: Reader<'a>,
}

// ---- the parts of the calls

// The refusal of more bytes than may be read.
fn open_number(s: &[u8]) -> Option<Refusal>
    ensures { opening_number result ≡ open_number s.now }
{
    if limits::MOST_BYTES < s.len() {
        return Some(Refusal::TooLarge);
    }
    None
}

// The bytes that are read: all, or none.
fn first_part<'a>(s: &'a [u8]) -> &'a [u8]
    ensures { result.now ≡ first_part s.now }
{
    if limits::MOST_BYTES < s.len() {
        return &s[0..0];
    }
    s
}

// A content, as a part of the same slice.
fn content<'a>(s: &'a [u8], start: usize, end: usize) -> &'a [u8]
    requires { (start ≤ end) × (end ≤ length s.now) }
    ensures { result.now ≡ part start end s.now }
{
    &s[start..end]
}

// ---- the calls

pub fn open<'a>(s: &'a [u8]) -> Opened<'a>
    ensures { opened_told result ≡ opened s.now }
{
    Opened {
        refused: open_number(s),
        reader: Reader {
            s: first_part(s),
            at: 0,
            level: 0,
        },
    }
}

pub fn step<'a>(r: Reader<'a>, ask: Ask) -> Stepped<'a>
    ensures { (stepped_told result ≡ stepped (reader_told r.entry) (asked ask)) × (result.reader.s ≡ r.entry.s) }
{
    let t = step_at(r.s, r.at, r.level, ask);
    Stepped {
        said: t.said,
        reader: Reader {
            s: r.s,
            at: t.at,
            level: r.level,
        },
    }
}

pub fn enter<'a>(r: Reader<'a>) -> Entered<'a>
    ensures { (entered_told result ≡ entered (reader_told r.entry)) × (result.outer.s ≡ r.entry.s) }
{
    let e = gate_at(r.s, r.at, r.level);
    let p = content(r.s, e.start, e.end);
    Entered {
        said: e.said,
        inner: Reader {
            s: p,
            at: 0,
            level: e.level,
        },
        outer: Reader {
            s: r.s,
            at: e.at,
            level: r.level,
        },
    }
}

// ---- the reader with plain parameters

// A step of a reader at a position and a level.
pub fn step_once(s: &[u8], at: usize, level: u32, ask: Ask) -> Moved
    ensures { as_moved result ≡ step_at s.now at level (asked ask) }
{
    let n = step(Reader { s, at, level }, ask);
    Moved {
        said: n.said,
        at: n.reader.at,
    }
}

// The answer of entering, where the outer reader then is, and the level of the inner one.
#[derive(Clone, Copy, Debug, PartialEq, Eq)]
pub struct Once {
    pub said: Result<Said, Refused>,
    pub at: usize,
    pub level: u32,
}

pub fn enter_once(s: &[u8], at: usize, level: u32) -> Once
    ensures { once_told result ≡ entering (entered (reader s.now at level)) }
{
    let n = enter(Reader { s, at, level });
    Once {
        said: n.said,
        at: n.outer.at,
        level: n.inner.level,
    }
}
