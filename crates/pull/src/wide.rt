// A varint64. `wire` has the same steps for both widths; this copy is the reader's own, as the compiler makes a function with one caller a part of it.
ghost use Rattle.std.specs.Prelude.{◌≡◌, ◌+◌, ◌≤◌, ◌<◌, length, get_or, drop};
ghost use Rattle.spec.specs.Varint.{varint64};
ghost use Rattle.wire.specs.Answers.{as_read};
ghost use Rattle.wire.specs.Reached.{Reached};

use crate::bytes::by_bytes;
use spec::refusals::Refusal;
use wire::found::Found;
use wire::varint::{LAST_OF_64, LONGEST, MORE_OF_64};

// What the bytes of a varint count from the third on: the second counts 128, and each 128 times as much as the one before it.
const THIRD: u64 = 128 * 128;

const FOURTH: u64 = 128 * THIRD;

const FIFTH: u64 = 128 * FOURTH;

const SIXTH: u64 = 128 * FIFTH;

const SEVENTH: u64 = 128 * SIXTH;

const EIGHTH: u64 = 128 * SEVENTH;

const NINTH: u64 = 128 * EIGHTH;

const TENTH: u64 = 128 * NINTH;

// Those of one to three bytes are read in place, as most are, and the others by a call. With the hint the compiler puts it in place wherever it is called, so that its
// answer is in registers there. For the second and the third byte one test says whether they are there.
#[inline]
pub(crate) fn wide_found(s: &[u8], at: usize) -> Result<Found, Refusal>
    ensures { as_read at result ≡ varint64 (drop at s.now) }
{
    if s.len() <= at {
        return Err(Refusal::EndsEarly);
    }
    let c = s[at] as u64;
    if c < 128 {
        return Ok(Found {
            value: c,
            next: at + 1,
        });
    }
    if s.len() - at < 3 {
        return wide_long(s, at);
    }
    let d = s[at + 1] as u64;
    let v2 = c % 128 + d % 128 * 128;
    if d < 128 {
        return Ok(Found {
            value: v2,
            next: at + 2,
        });
    }
    let e = s[at + 2] as u64;
    if e < 128 {
        let v3 = v2 + e % 128 * THIRD;
        return Ok(Found {
            value: v3,
            next: at + 3,
        });
    }
    wide_long(s, at)
}

// Two or more bytes. Called at two places, and so stays a call where `wide_found` is used more than once.
fn wide_long(s: &[u8], at: usize) -> Result<Found, Refusal>
    requires { (at < length s.now) × (128 ≤ get_or s.now at 0) }
    ensures { as_read at result ≡ varint64 (drop at s.now) }
{
    if LONGEST <= s.len() - at {
        return of_ten(s, at);
    }
    by_bytes(s, at, MORE_OF_64, LAST_OF_64)
}

// A varint of two or more bytes, where ten bytes are there: with no call, so that a long value costs a reader little more than its bytes.
fn of_ten(s: &[u8], at: usize) -> Result<Found, Refusal>
    requires { (at + 10 ≤ length s.now) × (128 ≤ get_or s.now at 0) }
    ensures { as_read at result ≡ varint64 (drop at s.now) }
{
    let b0 = s[at] as u64;
    let b1 = s[at + 1] as u64;
    let v2 = b0 % 128 + b1 % 128 * 128;
    if b1 < 128 {
        return Ok(Found {
            value: v2,
            next: at + 2,
        });
    }
    let b2 = s[at + 2] as u64;
    let v3 = v2 + b2 % 128 * THIRD;
    if b2 < 128 {
        return Ok(Found {
            value: v3,
            next: at + 3,
        });
    }
    let b3 = s[at + 3] as u64;
    let v4 = v3 + b3 % 128 * FOURTH;
    if b3 < 128 {
        return Ok(Found {
            value: v4,
            next: at + 4,
        });
    }
    from_fifth(s, at, v4)
}

// The fifth to the tenth byte, of which all are there; `v4` is the value of the four before them.
fn from_fifth(s: &[u8], at: usize, v4: u64) -> Result<Found, Refusal>
    requires { (at + 10 ≤ length s.now) × Reached 9 1 s.now at 4 5 v4 }
    ensures { as_read at result ≡ varint64 (drop at s.now) }
{
    let b4 = s[at + 4] as u64;
    let v5 = v4 + b4 % 128 * FIFTH;
    if b4 < 128 {
        return Ok(Found {
            value: v5,
            next: at + 5,
        });
    }
    let b5 = s[at + 5] as u64;
    let v6 = v5 + b5 % 128 * SIXTH;
    if b5 < 128 {
        return Ok(Found {
            value: v6,
            next: at + 6,
        });
    }
    let b6 = s[at + 6] as u64;
    let v7 = v6 + b6 % 128 * SEVENTH;
    if b6 < 128 {
        return Ok(Found {
            value: v7,
            next: at + 7,
        });
    }
    from_eighth(s, at, v7)
}

// The eighth to the tenth, likewise.
fn from_eighth(s: &[u8], at: usize, v7: u64) -> Result<Found, Refusal>
    requires { (at + 10 ≤ length s.now) × Reached 9 1 s.now at 7 2 v7 }
    ensures { as_read at result ≡ varint64 (drop at s.now) }
{
    let b7 = s[at + 7] as u64;
    let v8 = v7 + b7 % 128 * EIGHTH;
    if b7 < 128 {
        return Ok(Found {
            value: v8,
            next: at + 8,
        });
    }
    let b8 = s[at + 8] as u64;
    let v9 = v8 + b8 % 128 * NINTH;
    if b8 < 128 {
        return Ok(Found {
            value: v9,
            next: at + 9,
        });
    }
    let b9 = s[at + 9] as u64;
    if LAST_OF_64 < b9 {
        return Err(Refusal::BadVarint);
    }
    let whole = v9 + b9 * TENTH;
    Ok(Found {
        value: whole,
        next: at + 10,
    })
}
