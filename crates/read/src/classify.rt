// What the field at a place of a message is, and what a reader has to do with it. Nothing is stored here, and no group is skipped: a reader does that in
// its own way.
ghost use Rattle.std.specs.Prelude.{◌≡◌, true, false, ◌+◌, ◌^◌, ◌≤◌, ◌<◌, length, drop};
ghost use Rattle.spec.specs.Varint.{tag};
ghost use Rattle.spec.specs.Kind.{shape, head_kind};
ghost use Rattle.spec.specs.Skip.{content};
ghost use Rattle.spec.specs.declared.Mode.{Mode};
ghost use Rattle.spec.specs.Reading.{field};
ghost use Rattle.schema.specs.Layout.{key_count};
ghost use Rattle.schema.specs.Tables.{table_says};
ghost use Rattle.skip.specs.Spans.{span_at};
ghost use Rattle.read.specs.Answers.{numbered, tag_at, quick_tag, length_of, has_length, bodied, with_body, asked, refused_in, resolved};
ghost use Rattle.read.specs.Prepared.{prepared};

use crate::scalar::{scalar_at, varint_at};
use schema::{layout, says};
use skip::content::Span;
use spec::refusals::Refusal;
use spec::{kinds, limits, wire_types};
use utf8::{is_utf8, utf8_prefix};
use wire::found::Found;
use wire::varint::decode::decode_varint32;

// The last wire type, and the first number after the wire types.
const LAST_WIRE: u64 = wire_types::FIXED32 as u64;

const WIRE_TYPES: u64 = LAST_WIRE + 1;

// The greatest depth at which a message head may stand.
const DEEPEST_HEAD: u32 = limits::MOST_LEVELS - 1;

// A field that gives a record: what the record says, and what is in it, which is the type of a message's fields or the kind of a packed field's
// elements, else 0.
#[derive(Clone, Copy, Debug, PartialEq, Eq)]
pub struct Row {
    pub number: u64,
    pub kind: u64,
    pub inner: u32,
    pub value: u64,
    pub start: usize,
    pub end: usize,
}

// What a reader has to do: store a record, or skip a group, whose fields start at `next`.
#[derive(Clone, Copy, Debug, PartialEq, Eq)]
pub enum Field {
    Of(Row),
    Group { number: u64, next: usize },
}

// What a tag says, and the place after it.
#[derive(Clone, Copy)]
struct TagSaid {
    number: u64,
    kind: u64,
    inner: u32,
    next: usize,
}

// What comes after a tag: a value and the range of its record, or the fields of a group.
#[derive(Clone, Copy)]
enum Body {
    Is {
        value: u64,
        start: usize,
        end: usize,
    },
    Group,
}

// ---- tags

// Any tag.
fn long_tag(
    keys: &[u64; layout::KEYS],
    info: &[u8; layout::INFO],
    s: &[u8],
    at: usize,
    ty: u32,
) -> Result<TagSaid, Refusal>
    ensures { numbered result ≡ tag_at (table_says keys.now info.now ty) at (tag (drop at s.now)) }
{
    let Found { value, next } = decode_varint32(s, at)?;
    if value < 8 || LAST_WIRE < value % 8 {
        return Err(Refusal::BadTag);
    }
    let said = says(keys, info, ty, value as u32);
    Ok(TagSaid {
        number: value / 8,
        kind: u64::from(said.kind),
        inner: u32::from(said.inner),
        next,
    })
}

// What entry i says of a tag of one byte whose key it has.
fn quick_tag(info: &[u8; layout::INFO], i: usize, c: u64, at: usize) -> TagSaid
    requires { (i < key_count) × (at + 1 < 2 ^ 64) }
    ensures { result ≡ quick_tag info.now i c at }
{
    let kind = u64::from(info[layout::KINDS_AT + i]);
    let inner = if kind == kinds::MESSAGE {
        u32::from(info[layout::INNERS_AT + i])
    } else {
        0
    };
    TagSaid {
        number: c / 8,
        kind,
        inner,
        next: at + 1,
    }
}

// The tag at a place. One of a single byte whose entry is the guess needs no search: its key says that owner, number and wire type are right.
fn tag_at(
    keys: &[u64; layout::KEYS],
    info: &[u8; layout::INFO],
    s: &[u8],
    at: usize,
    ty: u32,
) -> Result<TagSaid, Refusal>
    ensures { numbered result ≡ tag_at (table_says keys.now info.now ty) at (tag (drop at s.now)) }
{
    if at < s.len() && ty < limits::MOST_TYPES {
        let c = u64::from(s[at]);
        if c < 128 {
            let i = usize::from(info[ty as usize * layout::GUESSES + c as usize / 8]);
            if keys[i] == u64::from(ty) * layout::OWNER_UNIT + c && 8 <= c && c % 8 < WIRE_TYPES {
                return Ok(quick_tag(info, i, c, at));
            }
        }
    }
    long_tag(keys, info, s, at, ty)
}

// ---- contents

fn is_head(kind: u64) -> bool
    ensures { result ≡ head_kind kind }
{
    kind == kinds::MESSAGE || kind == kinds::PACKED_HEAD
}

fn long_span(s: &[u8], at: usize, kind: u64) -> Result<Span, Refusal>
    requires { at ≤ length s.now }
    ensures { result ≡ span_at at (content (length_of kind) (drop at s.now)) }
{
    let Found { value, next } = varint_at(s, at, !is_head(kind))?;
    if ((s.len() - next) as u64) < value {
        return Err(Refusal::EndsEarly);
    }
    Ok(Span {
        start: next,
        end: next + value as usize,
    })
}

// The content of a field with a length, which is a varint64 for messages and packed fields, else a varint32.
fn span_at(s: &[u8], at: usize, kind: u64) -> Result<Span, Refusal>
    requires { at ≤ length s.now }
    ensures { result ≡ span_at at (content (length_of kind) (drop at s.now)) }
{
    if at < s.len() {
        let n = usize::from(s[at]);
        if n < 128 {
            let start = at + 1;
            if s.len() - start < n {
                return Err(Refusal::EndsEarly);
            }
            return Ok(Span {
                start,
                end: start + n,
            });
        }
    }
    long_span(s, at, kind)
}

// ---- what comes after a tag

fn has_length(kind: u64) -> bool
    ensures { result ≡ has_length kind }
{
    kind == kinds::STRING
        || kind == kinds::MESSAGE
        || kind == kinds::BYTES
        || kind == kinds::PACKED_HEAD
        || kind == kinds::UNKNOWN_BYTES
}

// A field with a length.
fn delimited(s: &[u8], at: usize, kind: u64) -> Result<Body, Refusal>
    requires { (at ≤ length s.now) × (has_length kind ≡ true) }
    ensures { numbered result ≡ bodied (shape kind) 0 at (drop at s.now) }
{
    let Span { start, end } = span_at(s, at, kind)?;
    if kind == kinds::STRING && !is_utf8(&s[start..end]) {
        return Err(Refusal::NotUtf8);
    }
    Ok(Body::Is {
        value: 0,
        start,
        end,
    })
}

// A field with no length.
fn plain(s: &[u8], at: usize, kind: u64) -> Result<Body, Refusal>
    requires { (at ≤ length s.now) × (has_length kind ≡ false) }
    ensures { numbered result ≡ bodied (shape kind) 0 at (drop at s.now) }
{
    match kind {
        kinds::GROUP_START => Ok(Body::Group),
        kinds::GROUP_END => Err(Refusal::NoGroupOpen),
        _ => {
            let Found { value, next } = scalar_at(s, at, kind)?;
            Ok(Body::Is {
                value,
                start: at,
                end: next,
            })
        }
    }
}

fn body_at(s: &[u8], at: usize, kind: u64, depth: u32) -> Result<Body, Refusal>
    requires { at ≤ length s.now }
    ensures { numbered result ≡ bodied (shape kind) depth at (drop at s.now) }
{
    if has_length(kind) {
        if kind == kinds::MESSAGE && DEEPEST_HEAD < depth {
            return Err(Refusal::TooDeep);
        }
        return delimited(s, at, kind);
    }
    plain(s, at, kind)
}

// ---- a field

fn with_body(tag: TagSaid, body: Body) -> Field
    ensures { result ≡ with_body tag body }
{
    match body {
        Body::Is { value, start, end } => Field::Of(Row {
            number: tag.number,
            kind: tag.kind,
            inner: tag.inner,
            value,
            start,
            end,
        }),
        Body::Group => Field::Group {
            number: tag.number,
            next: tag.next,
        },
    }
}

// The field at a place, in a message of this type and depth.
pub fn field_at(
    keys: &[u64; layout::KEYS],
    info: &[u8; layout::INFO],
    s: &[u8],
    at: usize,
    ty: u32,
    depth: u32,
) -> Result<Field, Refusal>
    ensures { (mode : Mode) → (resolved depth at s.now (numbered result) ≡ field (prepared mode keys.now info.now) depth ty (drop at s.now))
        × (numbered result ≡ asked (prepared mode keys.now info.now) depth ty at s.now) }
{
    let tag = tag_at(keys, info, s, at, ty)?;
    let body = body_at(s, tag.next, tag.kind, depth)?;
    Ok(with_body(tag, body))
}

// Where the field at `at` is refused with this number: at its tag, and a string that is not UTF-8 at the first byte of its broken letter. That byte is looked
// for again: a place that each field carried with it would slow down the reading of strings. It takes a number, and no `Refusal`, as callers may have any.
pub fn refused_at(s: &[u8], at: usize, number: u32) -> usize
    ensures { result ≡ at + refused_in number (drop at s.now) }
{
    if number != Refusal::NotUtf8.number() {
        return at;
    }
    let Ok(Found { value: _, next }) = decode_varint32(s, at) else {
        return at;
    };
    let Ok(Span { start, end }) = span_at(s, next, kinds::STRING) else {
        return at;
    };
    let n = utf8_prefix(&s[start..end]);
    start + n
}
