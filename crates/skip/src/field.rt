// A field that is no group: its tag, and the position after its value.
ghost use Rattle.std.specs.Prelude.{◌≡◌, ◌≤◌, length, drop, Ok, IfSome};
ghost use Rattle.spec.specs.Varint.{varint32, varint64, fixed, tag};
ghost use Rattle.spec.specs.Skip.{content, plain};
ghost use Rattle.wire.specs.Answers.{as_read};
ghost use Rattle.skip.specs.Passed.{behind};

use crate::wire_types64;
use spec::refusals::Refusal;
use wire::found::Found;
use wire::varint;
use wire::varint::decode::decode_varint32;

// The largest tenth byte of a varint.
const LAST_OF_64: u8 = varint::LAST_OF_64 as u8;

// The tag at a position. Most have one byte: those are read in place.
pub(crate) fn tag_at(s: &[u8], at: usize) -> Result<Found, Refusal>
    ensures { as_read at result ≡ tag (drop at s.now) }
{
    if s.len() <= at {
        return Err(Refusal::EndsEarly);
    }
    let b = u64::from(s[at]);
    if 128 <= b {
        return long_tag(s, at);
    }
    if wire_types64::FIXED32 < b % 8 {
        return Err(Refusal::BadTag);
    }
    if b < 8 {
        return Err(Refusal::BadTag);
    }
    Ok(Found {
        value: b,
        next: at + 1,
    })
}

fn long_tag(s: &[u8], at: usize) -> Result<Found, Refusal>
    ensures { as_read at result ≡ tag (drop at s.now) }
{
    let found = decode_varint32(s, at)?;
    if wire_types64::FIXED32 < found.value % 8 {
        return Err(Refusal::BadTag);
    }
    if found.value < 8 {
        return Err(Refusal::BadTag);
    }
    Ok(found)
}

// The values that are most frequent, with no call: varints of one to five bytes, fixed values, and contents whose length is one byte. The
// position after the value, or none where it is none of these or ends too soon, which the general path decides.

fn quick_varint(s: &[u8], at: usize) -> Option<usize>
    requires { at ≤ length s.now }
    ensures { IfSome result (λ next. Ok next ≡ behind at (varint64 (drop at s.now))) }
{
    if s.len() - at < 5 {
        return None;
    }
    if s[at] < 128 {
        return Some(at + 1);
    }
    if s[at + 1] < 128 {
        return Some(at + 2);
    }
    if s[at + 2] < 128 {
        return Some(at + 3);
    }
    if s[at + 3] < 128 {
        return Some(at + 4);
    }
    if s[at + 4] < 128 {
        return Some(at + 5);
    }
    None
}

fn quick_bytes(s: &[u8], at: usize) -> Option<usize>
    requires { at ≤ length s.now }
    ensures { IfSome result (λ next. Ok next ≡ behind at (content varint32 (drop at s.now))) }
{
    let left = s.len() - at;
    if left == 0 {
        return None;
    }
    let n = usize::from(s[at]);
    if 128 <= n {
        return None;
    }
    if left <= n {
        return None;
    }
    Some(at + 1 + n)
}

pub(crate) fn quick_value(s: &[u8], at: usize, w: u64) -> Option<usize>
    requires { at ≤ length s.now }
    ensures { IfSome result (λ next. Ok next ≡ behind at (plain w (drop at s.now))) }
{
    match w {
        wire_types64::VARINT => quick_varint(s, at),
        wire_types64::FIXED64 => past_fixed(s, at, 8).ok(),
        wire_types64::DELIMITED => quick_bytes(s, at),
        wire_types64::FIXED32 => past_fixed(s, at, 4).ok(),
        _ => None,
    }
}

// Any value, by its wire type.

// A varint's value is not needed here, so only the end of its bytes is found.
fn past_varint(s: &[u8], at: usize) -> Result<usize, Refusal>
    requires { at ≤ length s.now }
    ensures { result ≡ behind at (varint64 (drop at s.now)) }
{
    let left = s.len() - at;
    for n in 0..varint::MORE_OF_64 {
        if left <= n {
            return Err(Refusal::EndsEarly);
        }
        if s[at + n] < 128 {
            return Ok(at + n + 1);
        }
    }
    if left <= varint::MORE_OF_64 {
        return Err(Refusal::EndsEarly);
    }
    if LAST_OF_64 < s[at + varint::MORE_OF_64] {
        return Err(Refusal::BadVarint);
    }
    Ok(at + varint::MORE_OF_64 + 1)
}

fn past_fixed(s: &[u8], at: usize, n: usize) -> Result<usize, Refusal>
    requires { at ≤ length s.now }
    ensures { result ≡ behind at (fixed n (drop at s.now)) }
{
    if s.len() - at < n {
        return Err(Refusal::EndsEarly);
    }
    Ok(at + n)
}

fn past_bytes(s: &[u8], at: usize) -> Result<usize, Refusal>
    ensures { result ≡ behind at (content varint32 (drop at s.now)) }
{
    let Found { value, next } = decode_varint32(s, at)?;
    let n = value as usize;
    if s.len() - next < n {
        return Err(Refusal::EndsEarly);
    }
    Ok(next + n)
}

pub(crate) fn past_plain(s: &[u8], at: usize, w: u64) -> Result<usize, Refusal>
    requires { at ≤ length s.now }
    ensures { result ≡ behind at (plain w (drop at s.now)) }
{
    match w {
        wire_types64::VARINT => past_varint(s, at),
        wire_types64::FIXED64 => past_fixed(s, at, 8),
        wire_types64::DELIMITED => past_bytes(s, at),
        wire_types64::FIXED32 => past_fixed(s, at, 4),
        _ => Err(Refusal::NoGroupOpen),
    }
}
