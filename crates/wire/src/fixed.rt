// Fixed values: four or eight bytes, the lowest first. Four bytes that are summed up, or stored side by side, are one load or store of the machine. Each width has
// public names and promises of its own: one function over the width would be no plainer.
ghost use Rattle.std.specs.Prelude.{◌≡◌, ◌+◌, ◌^◌, ◌≤◌, ◌<◌, length, drop};
ghost use Rattle.std.proofs.lemmas.List.Edits.{sets};
ghost use Rattle.spec.specs.Base.{Took};
ghost use Rattle.spec.specs.Varint.{fixed, little};
ghost use Rattle.spec.specs.Kind.{extend};
ghost use Rattle.wire.specs.Answers.{as_read, Stored};

use crate::found::Found;
use spec::refusals::Refusal;

// The number of four bytes.
fn four(s: &[u8], at: usize) -> u64
    requires { at + 4 ≤ length s.now }
    ensures { (result < 2 ^ 32) × (fixed 4 (drop at s.now) ≡ Took result 4) }
{
    let b0 = s[at] as u64;
    let b1 = s[at + 1] as u64;
    let b2 = s[at + 2] as u64;
    let b3 = s[at + 3] as u64;
    b0 + b1 * 256 + b2 * 0x1_0000 + b3 * 0x100_0000
}

pub fn decode_fixed32(s: &[u8], at: usize) -> Result<Found, Refusal>
    ensures { as_read at result ≡ fixed 4 (drop at s.now) }
{
    if s.len() < at {
        return Err(Refusal::EndsEarly);
    }
    if s.len() - at < 4 {
        return Err(Refusal::EndsEarly);
    }
    let value = four(s, at);
    Ok(Found {
        value,
        next: at + 4,
    })
}

pub fn decode_fixed64(s: &[u8], at: usize) -> Result<Found, Refusal>
    ensures { as_read at result ≡ fixed 8 (drop at s.now) }
{
    if s.len() < at {
        return Err(Refusal::EndsEarly);
    }
    if s.len() - at < 8 {
        return Err(Refusal::EndsEarly);
    }
    let low = four(s, at);
    let high = four(s, at + 4);
    let value = low + high * 0x1_0000_0000;
    Ok(Found {
        value,
        next: at + 8,
    })
}

// The 64-bit pattern of a signed number of 32 bits.
pub fn extend32(v: u32) -> u64
    ensures { result ≡ extend v }
{
    if v < 0x8000_0000 {
        return v as u64;
    }
    v as u64 + 0xffff_ffff_0000_0000
}

// Stores the lowest four bytes of `value`.
fn store_four(value: u64, out: &mut [u8], at: usize)
    requires { at + 4 ≤ length out.old }
    ensures { out.new ≡ sets out.old at (little 4 value) }
{
    let v1 = value / 256;
    let v2 = v1 / 256;
    let v3 = v2 / 256;
    out[at] = (value % 256) as u8;
    out[at + 1] = (v1 % 256) as u8;
    out[at + 2] = (v2 % 256) as u8;
    out[at + 3] = (v3 % 256) as u8;
}

pub fn put_fixed32(value: u32, out: &mut [u8], at: usize) -> Option<usize>
    ensures { Stored out.old at (little 4 value) out.new result }
{
    if out.len() < at {
        return None;
    }
    if out.len() - at < 4 {
        return None;
    }
    store_four(value as u64, out, at);
    Some(at + 4)
}

pub fn put_fixed64(value: u64, out: &mut [u8], at: usize) -> Option<usize>
    ensures { Stored out.old at (little 8 value) out.new result }
{
    if out.len() < at {
        return None;
    }
    if out.len() - at < 8 {
        return None;
    }
    store_four(value, out, at);
    store_four(value / 0x1_0000_0000, out, at + 4);
    Some(at + 8)
}
