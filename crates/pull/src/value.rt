// Reading at a position of a slice: a value that is one number, or a content after its length. What is marked `inline` is put in place where it is called, so that its
// answer is in registers there.
ghost use Rattle.std.specs.Prelude.{◌≡◌, drop};
ghost use Rattle.spec.specs.Base.{meaning};
ghost use Rattle.spec.specs.Varint as spec;
ghost use Rattle.spec.specs.Varint.{varint32};
ghost use Rattle.spec.specs.Kind.{scalar, int32, bool, sfixed32};
ghost use Rattle.spec.specs.Skip.{content};
ghost use Rattle.wire.specs.Answers.{as_read};
ghost use Rattle.wire.specs.Reached.{varint_of};
ghost use Rattle.skip.specs.Spans.{span_at};

use crate::bytes::by_bytes;
use crate::wide::wide_found;
use skip::content::Span;
use spec::limits;
use spec::refusals::Refusal;
use wire::fixed::{decode_fixed32, extend32};
use wire::found::Found;
use wire::varint::{LAST_OF_32, MORE_OF_32};
use wire::zigzag::unzigzag;

// ---- numbers

// A varint32, as a tag is. Those of one or two bytes are read in place, as most are, and the others a byte at a time.
#[inline]
pub(crate) fn narrow_found(s: &[u8], at: usize) -> Result<Found, Refusal>
    ensures { as_read at result ≡ varint32 (drop at s.now) }
{
    if s.len() <= at {
        return Err(Refusal::EndsEarly);
    }
    let c = s[at] as u64;
    if c < 128 {
        return Ok(Found {
            value: c,
            next: at + 1,
        });
    }
    if 1 < s.len() - at {
        let d = s[at + 1] as u64;
        if d < 128 {
            let v = c % 128 + d * 0x80;
            return Ok(Found {
                value: v,
                next: at + 2,
            });
        }
    }
    by_bytes(s, at, MORE_OF_32, LAST_OF_32)
}

// A varint of either width, for what is read at both.
#[inline]
fn varint_found(s: &[u8], at: usize, narrow: bool) -> Result<Found, Refusal>
    ensures { as_read at result ≡ varint_of narrow (drop at s.now) }
{
    if narrow {
        return narrow_found(s, at);
    }
    wide_found(s, at)
}

// An int32: a varint64 whose signed number has 32 bits.
pub(crate) fn int32_found(s: &[u8], at: usize) -> Result<Found, Refusal>
    ensures { as_read at result ≡ scalar int32 (drop at s.now) }
{
    let found = wide_found(s, at)?;
    if found.value < limits::BEYOND_INT32 {
        return Ok(found);
    }
    if limits::LEAST_INT32 <= found.value {
        return Ok(found);
    }
    Err(Refusal::OutOfRange)
}

pub(crate) fn bool_found(s: &[u8], at: usize) -> Result<Found, Refusal>
    ensures { as_read at result ≡ scalar bool (drop at s.now) }
{
    let Found { value, next } = wide_found(s, at)?;
    Ok(Found {
        value: u64::from(value != 0),
        next,
    })
}

// A zigzag value of either width.
pub(crate) fn sint_found(s: &[u8], at: usize, narrow: bool) -> Result<Found, Refusal>
    ensures { as_read at result ≡ meaning spec.unzigzag (varint_of narrow (drop at s.now)) }
{
    let Found { value, next } = varint_found(s, at, narrow)?;
    Ok(Found {
        value: unzigzag(value),
        next,
    })
}

pub(crate) fn sfixed32_found(s: &[u8], at: usize) -> Result<Found, Refusal>
    ensures { as_read at result ≡ scalar sfixed32 (drop at s.now) }
{
    let Found { value, next } = decode_fixed32(s, at)?;
    Ok(Found {
        value: extend32(value as u32),
        next,
    })
}

// ---- contents

// The content after a length, which is a varint32 or a varint64.
#[inline]
pub(crate) fn span_at(s: &[u8], at: usize, narrow: bool) -> Result<Span, Refusal>
    ensures { result ≡ span_at at (content (varint_of narrow) (drop at s.now)) }
{
    let Found { value, next } = varint_found(s, at, narrow)?;
    if ((s.len() - next) as u64) < value {
        return Err(Refusal::EndsEarly);
    }
    Ok(Span {
        start: next,
        end: next + value as usize,
    })
}
