// Storing the shortest varint of a value, and its size.
ghost use Rattle.std.specs.Prelude.{◌≡◌, ◌+◌, ◌^◌, ◌≤◌, ◌<◌, length};
ghost use Rattle.std.proofs.lemmas.List.Edits.{sets};
ghost use Rattle.spec.specs.Base.{filled};
ghost use Rattle.spec.specs.Varint.{encode, size};
ghost use Rattle.wire.specs.Answers.{Stored};

use super::LONGEST;

// The most bytes of a varint of 32 bits.
const LONGEST_OF_32: usize = 5;

// Rungs of the size ladder: the least values whose varints take two bytes, three, four, five, nine and ten. A byte has seven bits of the value, so each rung is
// 128 times the one before it: 128, 16,384, 2,097,152 and so on.
const TWO_BYTES: u64 = 128;

const THREE_BYTES: u64 = 128 * TWO_BYTES;

const FOUR_BYTES: u64 = 128 * THREE_BYTES;

const FIVE_BYTES: u64 = 128 * FOUR_BYTES;

const NINE_BYTES: u64 = FIVE_BYTES * FIVE_BYTES;

const TEN_BYTES: u64 = 128 * NINE_BYTES;

// How many bytes the shortest varint of a value below 2,097,152 has: one below 128, two below 16,384, else three. It is a function of its own so that the compiler
// does without a branch, which would be mispredicted where sizes change.
fn short_varint64_len(value: u64) -> usize
    requires { value < 128 ^ 3 }
    ensures { result ≡ size value }
{
    if value < TWO_BYTES {
        1
    } else if value < THREE_BYTES {
        2
    } else {
        3
    }
}

// The same of any value: one byte, and one more for each rung that it reaches; after the rung of ten bytes there is none.
pub fn encoded_varint64_len(value: u64) -> usize
    ensures { result ≡ size value }
{
    if value < FOUR_BYTES {
        return short_varint64_len(value);
    }
    if TEN_BYTES <= value {
        return LONGEST;
    }
    let mut bytes = 4;
    let mut rung = FIVE_BYTES;
    while rung <= value {
        rung = rung * 128;
        bytes += 1;
    }
    bytes
}

// Stores the first eight bytes of a varint of nine or ten, each of which has more after it, and returns what is left of the value.
fn store_eight(value: u64, out: &mut [u8], at: usize) -> u64
    requires { (128 ^ 8 ≤ value) × (at + length (encode value) ≤ length out.old) }
    ensures { (8 + length (encode result) ≡ length (encode value)) × (sets out.new (at + 8) (encode result) ≡ sets out.old at (encode value)) }
{
    let v1 = value / 128;
    let v2 = v1 / 128;
    let v3 = v2 / 128;
    let v4 = v3 / 128;
    let v5 = v4 / 128;
    let v6 = v5 / 128;
    let v7 = v6 / 128;
    out[at] = (128 + value % 128) as u8;
    out[at + 1] = (128 + v1 % 128) as u8;
    out[at + 2] = (128 + v2 % 128) as u8;
    out[at + 3] = (128 + v3 % 128) as u8;
    out[at + 4] = (128 + v4 % 128) as u8;
    out[at + 5] = (128 + v5 % 128) as u8;
    out[at + 6] = (128 + v6 % 128) as u8;
    out[at + 7] = (128 + v7 % 128) as u8;
    v7 / 128
}

// Stores the varint from `at` on, where there is room for it, and returns the position after it: eight bytes at once, then four an iteration, then
// two, as most of the time goes into the loops.
fn store(value: u64, out: &mut [u8], at: usize) -> usize
    requires { at + length (encode value) ≤ length out.old }
    ensures { (result ≡ at + length (encode value)) × (out.new ≡ sets out.old at (encode value)) }
{
    let mut v = value;
    let mut i = at;
    if NINE_BYTES <= v {
        v = store_eight(v, out, i);
        i += 8;
    }
    while FIVE_BYTES <= v {
        let v1 = v / 128;
        let v2 = v1 / 128;
        let v3 = v2 / 128;
        out[i] = (128 + v % 128) as u8;
        out[i + 1] = (128 + v1 % 128) as u8;
        out[i + 2] = (128 + v2 % 128) as u8;
        out[i + 3] = (128 + v3 % 128) as u8;
        v = v3 / 128;
        i += 4;
    }
    while THREE_BYTES <= v {
        let v1 = v / 128;
        out[i] = (128 + v % 128) as u8;
        out[i + 1] = (128 + v1 % 128) as u8;
        v = v1 / 128;
        i += 2;
    }
    if v < 128 {
        out[i] = v as u8;
        return i + 1;
    }
    out[i] = (128 + v % 128) as u8;
    out[i + 1] = (v / 128) as u8;
    i + 2
}

// Stores it at the front of ten bytes, and returns its length.
pub fn encode_varint64(value: u64, buf: &mut [u8; LONGEST]) -> usize
    ensures { (result ≡ length (encode value)) × (buf.new ≡ filled (encode value) buf.old) }
{
    store(value, buf, 0)
}

// The same of 32 bits, for which five bytes do.
pub fn encode_varint32(value: u32, buf: &mut [u8; LONGEST_OF_32]) -> usize
    ensures { (result ≡ length (encode value)) × (buf.new ≡ filled (encode value) buf.old) }
{
    store(value as u64, buf, 0)
}

// A varint of two or more bytes. Where ten bytes are left its size is not computed.
fn put_long(value: u64, out: &mut [u8], at: usize) -> Option<usize>
    ensures { Stored out.old at (encode value) out.new result }
{
    if out.len() < at {
        return None;
    }
    let left = out.len() - at;
    if left < LONGEST {
        if left < encoded_varint64_len(value) {
            return None;
        }
    }
    Some(store(value, out, at))
}

// Stores it from `at` on, or leaves `out` as it was where there is no room.
pub fn put_varint64(value: u64, out: &mut [u8], at: usize) -> Option<usize>
    ensures { Stored out.old at (encode value) out.new result }
{
    if value < 128 {
        if at < out.len() {
            out[at] = value as u8;
            return Some(at + 1);
        }
        return None;
    }
    put_long(value, out, at)
}
