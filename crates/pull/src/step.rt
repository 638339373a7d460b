// A step at a position of a slice, and entering a message there. The pull reader's calls use these.
ghost use Rattle.std.specs.Prelude.{◌≡◌, ◌≤◌, length, drop};
ghost use Rattle.spec.specs.Kind as kind;
ghost use Rattle.spec.specs.Pull.{raw_tag, value, bytes, string, skip, step_at, enter_at};
ghost use Rattle.pull.specs.Told.{as_moved, asked, number_of, content_of, refused_at, shut_at, Gated};

use crate::value::{bool_found, int32_found, narrow_found, sfixed32_found, sint_found, span_at};
use crate::wide::wide_found;
use skip::content::Span;
use skip::unknown_or_group::skip_field_for_tag;
use spec::limits;
use spec::refusals::Refusal;
use utf8::utf8_prefix;
use wire::fixed::{decode_fixed32, decode_fixed64};
use wire::found::Found;

// What a step is asked for: the tag as it stands, a value of a kind, a content, or the field after a tag skipped.
#[derive(Clone, Copy, Debug, PartialEq, Eq)]
pub enum Ask {
    RawTag,
    Double,
    Float,
    Int64,
    Uint64,
    Int32,
    Fixed64,
    Fixed32,
    Bool,
    String,
    Bytes,
    Uint32,
    Enum,
    Sfixed32,
    Sfixed64,
    Sint32,
    Sint64,
    Skip(u32),
}

// The answer of a step: a number (a raw tag, a value as a 64-bit pattern, the bytes skipped), the bounds of a content in the slice, or that the
// bytes are at their end.
#[derive(Clone, Copy, Debug, PartialEq, Eq)]
pub enum Said {
    Number(u64),
    Content { start: usize, end: usize },
    End,
}

// A step that was refused: why, and where.
#[derive(Clone, Copy, Debug, PartialEq, Eq)]
pub struct Refused {
    pub refusal: Refusal,
    pub place: usize,
}

// The answer, or the refusal, and the position then: a refused step has one too.
#[derive(Clone, Copy, Debug, PartialEq, Eq)]
pub struct Moved {
    pub said: Result<Said, Refused>,
    pub at: usize,
}

// ---- the parts of an answer

fn number_of(f: Result<Found, Refusal>, at: usize) -> Moved
    ensures { result ≡ number_of at f }
{
    match f {
        Ok(Found { value, next }) => Moved {
            said: Ok(Said::Number(value)),
            at: next,
        },
        Err(refusal) => refuse(refusal, at),
    }
}

// A refused step stays, and its place is the position, unless a letter is broken.
fn refuse(refusal: Refusal, at: usize) -> Moved
    ensures { result ≡ refused_at refusal at }
{
    let said = Err(Refused { refusal, place: at });
    Moved { said, at }
}

fn content_of(f: Result<Span, Refusal>, at: usize) -> Moved
    ensures { result ≡ content_of at f }
{
    match f {
        Ok(Span { start, end }) => Moved {
            said: Ok(Said::Content { start, end }),
            at: end,
        },
        Err(refusal) => refuse(refusal, at),
    }
}

// ---- the steps, one by one: a loop that knows what it asks for calls these

// The tag as it stands, which is not judged, or the end.
pub fn tag_at(s: &[u8], at: usize) -> Moved
    ensures { as_moved result ≡ step_at s.now at 0 raw_tag }
{
    if s.len() <= at {
        return Moved {
            said: Ok(Said::End),
            at,
        };
    }
    number_of(narrow_found(s, at), at)
}

pub fn int32_at(s: &[u8], at: usize) -> Moved
    ensures { as_moved result ≡ step_at s.now at 0 (value kind.int32) }
{
    number_of(int32_found(s, at), at)
}

pub fn uint32_at(s: &[u8], at: usize) -> Moved
    ensures { as_moved result ≡ step_at s.now at 0 (value kind.uint32) }
{
    number_of(narrow_found(s, at), at)
}

// An int64 too: a value is its pattern.
pub fn uint64_at(s: &[u8], at: usize) -> Moved
    ensures { as_moved result ≡ step_at s.now at 0 (value kind.uint64) }
{
    number_of(wide_found(s, at), at)
}

pub fn bool_at(s: &[u8], at: usize) -> Moved
    ensures { as_moved result ≡ step_at s.now at 0 (value kind.bool) }
{
    number_of(bool_found(s, at), at)
}

pub fn sint32_at(s: &[u8], at: usize) -> Moved
    ensures { as_moved result ≡ step_at s.now at 0 (value kind.sint32) }
{
    number_of(sint_found(s, at, true), at)
}

pub fn sint64_at(s: &[u8], at: usize) -> Moved
    ensures { as_moved result ≡ step_at s.now at 0 (value kind.sint64) }
{
    number_of(sint_found(s, at, false), at)
}

pub fn fixed32_at(s: &[u8], at: usize) -> Moved
    ensures { as_moved result ≡ step_at s.now at 0 (value kind.fixed32) }
{
    number_of(decode_fixed32(s, at), at)
}

pub fn sfixed32_at(s: &[u8], at: usize) -> Moved
    ensures { as_moved result ≡ step_at s.now at 0 (value kind.sfixed32) }
{
    number_of(sfixed32_found(s, at), at)
}

pub fn fixed64_at(s: &[u8], at: usize) -> Moved
    ensures { as_moved result ≡ step_at s.now at 0 (value kind.fixed64) }
{
    number_of(decode_fixed64(s, at), at)
}

pub fn bytes_at(s: &[u8], at: usize) -> Moved
    ensures { as_moved result ≡ step_at s.now at 0 bytes }
{
    content_of(span_at(s, at, true), at)
}

// A content that is no UTF-8 is refused, at the first byte of its broken letter.
pub fn string_at(s: &[u8], at: usize) -> Moved
    ensures { as_moved result ≡ step_at s.now at 0 string }
{
    let found = span_at(s, at, true);
    if let Ok(span) = found {
        let n = utf8_prefix(&s[span.start..span.end]);
        let valid = span.start + n;
        if valid < span.end {
            return Moved {
                said: Err(Refused {
                    refusal: Refusal::NotUtf8,
                    place: valid,
                }),
                at,
            };
        }
    }
    content_of(found, at)
}

// A position in the slice from which as much is left as from `at`.
fn inside(s: &[u8], at: usize) -> usize
    ensures { (result ≤ length s.now) × (drop result s.now ≡ drop at s.now) }
{
    at.min(s.len())
}

// Skips the field after a tag; the answer is how many bytes it took.
pub fn skip_at(s: &[u8], at: usize, level: u32, tag: u32) -> Moved
    ensures { as_moved result ≡ step_at s.now at level (skip tag) }
{
    let from = inside(s, at);
    match skip_field_for_tag(tag, &s[from..], level) {
        Ok(used) => Moved {
            said: Ok(Said::Number(used as u64)),
            at: at + used,
        },
        Err(refusal) => refuse(refusal, at),
    }
}

// ---- any of them, and entering

pub fn step_at(s: &[u8], at: usize, level: u32, ask: Ask) -> Moved
    ensures { as_moved result ≡ step_at s.now at level (asked ask) }
{
    match ask {
        Ask::RawTag => tag_at(s, at),
        Ask::Int32 | Ask::Enum => int32_at(s, at),
        Ask::Uint32 => uint32_at(s, at),
        Ask::Int64 | Ask::Uint64 => uint64_at(s, at),
        Ask::Bool => bool_at(s, at),
        Ask::Sint32 => sint32_at(s, at),
        Ask::Sint64 => sint64_at(s, at),
        Ask::Float | Ask::Fixed32 => fixed32_at(s, at),
        Ask::Sfixed32 => sfixed32_at(s, at),
        Ask::Double | Ask::Fixed64 | Ask::Sfixed64 => fixed64_at(s, at),
        Ask::String => string_at(s, at),
        Ask::Bytes => bytes_at(s, at),
        Ask::Skip(tag) => skip_at(s, at, level, tag),
    }
}

// What entering finds: the answer, the content's bounds and level, and the position after it. Where it is refused the content is empty.
#[derive(Clone, Copy, Debug, PartialEq, Eq)]
pub struct Gate {
    pub said: Result<Said, Refused>,
    pub start: usize,
    pub end: usize,
    pub level: u32,
    pub at: usize,
}

fn shut(refusal: Refusal, at: usize, level: u32) -> Gate
    ensures { result ≡ shut_at refusal at level }
{
    Gate {
        said: Err(Refused { refusal, place: at }),
        start: 0,
        end: 0,
        level,
        at,
    }
}

// It is put in place, as the content's bounds are then in registers.
#[inline]
pub(crate) fn gate_at(s: &[u8], at: usize, level: u32) -> Gate
    ensures { Gated s.now at level result }
{
    if limits::MOST_LEVELS <= level {
        return shut(Refusal::TooDeep, at, level);
    }
    match span_at(s, at, false) {
        Ok(Span { start, end }) => Gate {
            said: Ok(Said::Content { start, end }),
            start,
            end,
            level: level + 1,
            at: end,
        },
        Err(refusal) => shut(refusal, at, level),
    }
}

// The content of a message at a position and a level.
#[inline]
pub fn enter_at(s: &[u8], at: usize, level: u32) -> Moved
    ensures { as_moved result ≡ enter_at s.now at level }
{
    let gate = gate_at(s, at, level);
    Moved {
        said: gate.said,
        at: gate.at,
    }
}
