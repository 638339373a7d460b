// Reading a varint at a position of a slice. Most have one or two bytes: those are read in place, and `long` reads the others by a call.
ghost use Rattle.std.specs.Prelude.{◌≡◌, ◌+◌, ◌*◌, ◌^◌, ◌<◌, ◌≤◌, length, get_or, drop};
ghost use Rattle.spec.specs.Varint.{varint, varint32, varint64};
ghost use Rattle.wire.specs.Answers.{as_read};
ghost use Rattle.wire.specs.Reached.{Reached, varint_of};

use super::{LAST_OF_32, LAST_OF_64, LONGEST, MORE_OF_32, MORE_OF_64};
use crate::found::Found;
use spec::refusals::Refusal;

// At most `more` bytes after which another comes, and one of at most `last`: one byte an iteration, up to the end of the slice.
fn by_bytes(s: &[u8], at: usize, more: usize, last: u64) -> Result<Found, Refusal>
    requires { (128 ^ more < 2 ^ 64) × ((last + 1) * 128 ^ more ≤ 2 ^ 64) × (at < length s.now) }
    ensures { as_read at result ≡ varint more last (drop at s.now) }
{
    let size = s.len() - at;
    let mut value: u64 = 0;
    let mut scale: u64 = 1;
    for n in 0..more {
        if size <= n {
            return Err(Refusal::EndsEarly);
        }
        let b = s[at + n] as u64;
        value += b % 128 * scale;
        if b < 128 {
            return Ok(Found {
                value,
                next: at + (n + 1),
            });
        }
        scale *= 128;
    }
    if size <= more {
        return Err(Refusal::EndsEarly);
    }
    let b = s[at + more] as u64;
    if last < b {
        return Err(Refusal::BadVarint);
    }
    let high = b * scale;
    let whole = value + high;
    Ok(Found {
        value: whole,
        next: at + (more + 1),
    })
}

// The fifth to the tenth byte, of which all are there; `v4` is the value of the four before them.
fn from_fifth(s: &[u8], at: usize, v4: u64) -> Result<Found, Refusal>
    requires { (at + 10 ≤ length s.now) × Reached 9 1 s.now at 4 5 v4 }
    ensures { as_read at result ≡ varint64 (drop at s.now) }
{
    let b4 = s[at + 4] as u64;
    let v5 = v4 + b4 % 128 * 0x1000_0000;
    if b4 < 128 {
        return Ok(Found {
            value: v5,
            next: at + 5,
        });
    }
    let b5 = s[at + 5] as u64;
    let v6 = v5 + b5 % 128 * 0x8_0000_0000;
    if b5 < 128 {
        return Ok(Found {
            value: v6,
            next: at + 6,
        });
    }
    let b6 = s[at + 6] as u64;
    let v7 = v6 + b6 % 128 * 0x400_0000_0000;
    if b6 < 128 {
        return Ok(Found {
            value: v7,
            next: at + 7,
        });
    }
    from_eighth(s, at, v7)
}

// The eighth to the tenth, likewise.
fn from_eighth(s: &[u8], at: usize, v7: u64) -> Result<Found, Refusal>
    requires { (at + 10 ≤ length s.now) × Reached 9 1 s.now at 7 2 v7 }
    ensures { as_read at result ≡ varint64 (drop at s.now) }
{
    let b7 = s[at + 7] as u64;
    let v8 = v7 + b7 % 128 * 0x2_0000_0000_0000;
    if b7 < 128 {
        return Ok(Found {
            value: v8,
            next: at + 8,
        });
    }
    let b8 = s[at + 8] as u64;
    let v9 = v8 + b8 % 128 * 0x100_0000_0000_0000;
    if b8 < 128 {
        return Ok(Found {
            value: v9,
            next: at + 9,
        });
    }
    let b9 = s[at + 9] as u64;
    if LAST_OF_64 < b9 {
        return Err(Refusal::BadVarint);
    }
    let whole = v9 + b9 * 0x8000_0000_0000_0000;
    Ok(Found {
        value: whole,
        next: at + 10,
    })
}

// A varint of two or more bytes, where ten bytes are there.
fn of_ten(s: &[u8], at: usize, narrow: bool) -> Result<Found, Refusal>
    requires { (at + 10 ≤ length s.now) × (128 ≤ get_or s.now at 0) }
    ensures { as_read at result ≡ varint_of narrow (drop at s.now) }
{
    let b0 = s[at] as u64;
    let b1 = s[at + 1] as u64;
    let v2 = b0 % 128 + b1 % 128 * 128;
    if b1 < 128 {
        return Ok(Found {
            value: v2,
            next: at + 2,
        });
    }
    let b2 = s[at + 2] as u64;
    let v3 = v2 + b2 % 128 * 0x4000;
    if b2 < 128 {
        return Ok(Found {
            value: v3,
            next: at + 3,
        });
    }
    let b3 = s[at + 3] as u64;
    let v4 = v3 + b3 % 128 * 0x20_0000;
    if b3 < 128 {
        return Ok(Found {
            value: v4,
            next: at + 4,
        });
    }
    if narrow {
        return fifth_of_five(s, at, v4);
    }
    from_fifth(s, at, v4)
}

// The last byte of a varint32, likewise.
fn fifth_of_five(s: &[u8], at: usize, v4: u64) -> Result<Found, Refusal>
    requires { (at + 10 ≤ length s.now) × Reached 4 15 s.now at 4 0 v4 }
    ensures { as_read at result ≡ varint32 (drop at s.now) }
{
    let b4 = s[at + 4] as u64;
    if LAST_OF_32 < b4 {
        return Err(Refusal::BadVarint);
    }
    let whole = v4 + b4 * 0x1000_0000;
    Ok(Found {
        value: whole,
        next: at + 5,
    })
}

// A varint of two or more bytes, for both widths. It stays a call: as a part of its callers it would make their loops too large.
#[inline(never)]
fn long(s: &[u8], at: usize, narrow: bool) -> Result<Found, Refusal>
    requires { (at < length s.now) × (128 ≤ get_or s.now at 0) }
    ensures { as_read at result ≡ varint_of narrow (drop at s.now) }
{
    if LONGEST <= s.len() - at {
        return of_ten(s, at, narrow);
    }
    if narrow {
        return by_bytes(s, at, MORE_OF_32, LAST_OF_32);
    }
    by_bytes(s, at, MORE_OF_64, LAST_OF_64)
}

// The width by a flag, so that both public functions are one body.
#[inline]
fn decode(s: &[u8], at: usize, narrow: bool) -> Result<Found, Refusal>
    ensures { as_read at result ≡ varint_of narrow (drop at s.now) }
{
    if s.len() <= at {
        return Err(Refusal::EndsEarly);
    }
    let b0 = s[at] as u64;
    if b0 < 128 {
        return Ok(Found {
            value: b0,
            next: at + 1,
        });
    }
    if 1 < s.len() - at {
        let b1 = s[at + 1] as u64;
        if b1 < 128 {
            let v2 = b0 % 128 + b1 % 128 * 128;
            return Ok(Found {
                value: v2,
                next: at + 2,
            });
        }
    }
    by_call(s, at, narrow)
}

// The others, by a call. Its answer is taken apart, as the caller's can then be in registers. This is a function of its own, since what a call fills is cleared where
// the function begins that makes the call: here that is not done for a short varint.
#[inline]
fn by_call(s: &[u8], at: usize, narrow: bool) -> Result<Found, Refusal>
    requires { (at < length s.now) × (128 ≤ get_or s.now at 0) }
    ensures { as_read at result ≡ varint_of narrow (drop at s.now) }
{
    let Found { value, next } = long(s, at, narrow)?;
    Ok(Found { value, next })
}

// A varint of 64 bits: at most ten bytes, the tenth at most 1.
#[inline]
pub fn decode_varint64(s: &[u8], at: usize) -> Result<Found, Refusal>
    ensures { as_read at result ≡ varint64 (drop at s.now) }
{
    decode(s, at, false)
}

// A varint of 32 bits: at most five bytes, the fifth at most 15.
#[inline]
pub fn decode_varint32(s: &[u8], at: usize) -> Result<Found, Refusal>
    ensures { as_read at result ≡ varint32 (drop at s.now) }
{
    decode(s, at, true)
}
