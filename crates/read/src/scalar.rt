// Values that are one number, at a place of a slice.
ghost use Rattle.std.specs.Prelude.{◌≡◌, ◌+◌, ◌<◌, length, drop, if◌then◌else◌};
ghost use Rattle.spec.specs.Names.{bad_tag};
ghost use Rattle.spec.specs.Varint.{fixed};
ghost use Rattle.spec.specs.Base.{No, meaning};
ghost use Rattle.spec.specs.Kind.{shape, extend};
ghost use Rattle.wire.specs.Answers.{as_read};
ghost use Rattle.wire.specs.Reached.{varint_of};
ghost use Rattle.read.specs.Answers.{scalar_of, meant_by, is_int, must_fit32, is_varint32, in_range, int_by, is_fixed, Shortly};

use spec::refusals::Refusal;
use spec::{kinds, limits};
use wire::fixed::{decode_fixed32, decode_fixed64, extend32};
use wire::found::Found;
use wire::varint::decode::{decode_varint32, decode_varint64};
use wire::zigzag::unzigzag;

// What the third byte of a varint counts.
const THIRD: u64 = 128 * 128;

// The first number after the kinds of descriptor.proto.
const OWN_KINDS: u64 = kinds::OWN_KINDS as u64;

// ---- varints

// A varint of few bytes, and how many it takes.
#[derive(Clone, Copy, Debug, PartialEq, Eq)]
pub struct ShortVarint {
    pub value: u64,
    pub size: usize,
}

// A varint of one to three bytes: the common ones, with no call and no loop.
pub(crate) fn short_at(s: &[u8], at: usize) -> Option<ShortVarint>
    requires { at < length s.now }
    ensures { Shortly (drop at s.now) result }
{
    let c = u64::from(s[at]);
    if c < 128 {
        return Some(ShortVarint { value: c, size: 1 });
    }
    if s.len() - at < 2 {
        return None;
    }
    let d = u64::from(s[at + 1]);
    if d < 128 {
        return Some(ShortVarint {
            value: c % 128 + d * 0x80,
            size: 2,
        });
    }
    if s.len() - at < 3 {
        return None;
    }
    let e = u64::from(s[at + 2]);
    if e < 128 {
        return Some(ShortVarint {
            value: c % 128 + d % 128 * 0x80 + e * THIRD,
            size: 3,
        });
    }
    None
}

// What a varint says as a value of a kind; nothing where the kind's values are no varints.
// Ranges first, the most frequent kinds before the others: the compiler tests them once, before a loop over one kind, but an arm of the match for each element.
pub(crate) fn meaning_of(kind: u64, v: u64) -> Option<u64>
    ensures { result ≡ meant_by (shape kind) v }
{
    // int64, uint64, int32
    if kinds::FLOAT < kind && kind < kinds::FIXED64 {
        return Some(v);
    }
    // sint32, sint64
    if kinds::SFIXED64 < kind && kind < OWN_KINDS {
        return Some(unzigzag(v));
    }
    // uint32, enum
    if kinds::BYTES < kind && kind < kinds::SFIXED32 {
        return Some(v);
    }
    match kind {
        kinds::BOOL => Some(if v == 0 { 0 } else { 1 }),
        kinds::UNKNOWN_VARINT => Some(v),
        _ => None,
    }
}

// Whether a kind's values are varints.
pub(crate) fn is_int(kind: u64) -> bool
    ensures { result ≡ is_int (shape kind) }
{
    meaning_of(kind, 0).is_some()
}

// Whether a value of a kind is a varint64 that must fit 32 signed bits: int32 and enum.
fn must_fit_32(kind: u64) -> bool
    ensures { result ≡ must_fit32 kind }
{
    kind == kinds::INT32 || kind == kinds::ENUM
}

// Whether a varint of a kind may have this value: int32 and enum have 32 signed bits.
fn in_range(kind: u64, v: u64) -> bool
    ensures { result ≡ in_range (must_fit32 kind) v }
{
    !must_fit_32(kind) || v < limits::BEYOND_INT32 || limits::LEAST_INT32 <= v
}

// Whether a value of a kind is a varint32: uint32 and sint32.
fn is_varint32(kind: u64) -> bool
    ensures { result ≡ is_varint32 kind }
{
    kind == kinds::UINT32 || kind == kinds::SINT32
}

// A varint of 32 bits or of 64. Each answer is taken apart: so it stays in registers.
pub(crate) fn varint_at(s: &[u8], at: usize, narrow: bool) -> Result<Found, Refusal>
    ensures { as_read at result ≡ varint_of narrow (drop at s.now) }
{
    if narrow {
        let Found { value, next } = decode_varint32(s, at)?;
        return Ok(Found { value, next });
    }
    let Found { value, next } = decode_varint64(s, at)?;
    Ok(Found { value, next })
}

// A value of a kind whose values are varints.
pub(crate) fn int_at(s: &[u8], at: usize, kind: u64) -> Result<Found, Refusal>
    ensures { as_read at result ≡ int_by (shape kind) (must_fit32 kind) (varint_of (is_varint32 kind) (drop at s.now)) }
{
    let Found { value, next } = varint_at(s, at, is_varint32(kind))?;
    if !in_range(kind, value) {
        return Err(Refusal::OutOfRange);
    }
    match meaning_of(kind, value) {
        Some(value) => Ok(Found { value, next }),
        None => Err(Refusal::BadTag),
    }
}

// ---- numbers of four bytes with a sign

fn sfixed32_at(s: &[u8], at: usize) -> Result<Found, Refusal>
    ensures { as_read at result ≡ meaning extend (fixed 4 (drop at s.now)) }
{
    let Found { value, next } = decode_fixed32(s, at)?;
    Ok(Found {
        value: extend32(value as u32),
        next,
    })
}

// ---- any of them

// Whether a value of a kind is one number of four or eight bytes.
#[tactic(auto, using(crate::proofs::KindTests::fixed_kind))]
pub(crate) fn is_fixed(kind: u64) -> bool
    ensures { result ≡ is_fixed (shape kind) }
{
    kind == kinds::DOUBLE
        || kind == kinds::FIXED64
        || kind == kinds::SFIXED64
        || kind == kinds::UNKNOWN_FIXED64
        || kind == kinds::FLOAT
        || kind == kinds::FIXED32
        || kind == kinds::SFIXED32
        || kind == kinds::UNKNOWN_FIXED32
}

fn int_or_none(s: &[u8], at: usize, kind: u64) -> Result<Found, Refusal>
    ensures { as_read at result ≡ (if is_int (shape kind) then scalar_of (shape kind) (drop at s.now) else No bad_tag) }
{
    if !is_int(kind) {
        return Err(Refusal::BadTag);
    }
    int_at(s, at, kind)
}

// A value of a kind that is one number, and else the refusal of a bad tag.
pub(crate) fn scalar_at(s: &[u8], at: usize, kind: u64) -> Result<Found, Refusal>
    ensures { as_read at result ≡ scalar_of (shape kind) (drop at s.now) }
{
    match kind {
        kinds::DOUBLE | kinds::FIXED64 | kinds::SFIXED64 | kinds::UNKNOWN_FIXED64 => {
            decode_fixed64(s, at)
        }
        kinds::FLOAT | kinds::FIXED32 | kinds::UNKNOWN_FIXED32 => decode_fixed32(s, at),
        kinds::SFIXED32 => sfixed32_at(s, at),
        _ => int_or_none(s, at, kind),
    }
}
