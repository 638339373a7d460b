// A segment from ranges of a lent payload.
ghost use Rattle.std.specs.Prelude.{◌≡◌, ◌+◌, ◌≤◌, length};
ghost use Rattle.std.proofs.Math.Option.{none};
ghost use Rattle.std.proofs.lemmas.List.Edits.{sets};
ghost use Rattle.spec.specs.Base.{limit};
ghost use Rattle.spec.specs.Told.{written_number, written_size, written_index};
ghost use Rattle.spec.specs.Varint.{encode};
ghost use Rattle.spec.specs.Writing.{prefixed, number, size, index, output};
ghost use Rattle.segment.specs.Segment.{segment, Range, ranges_of, contents_of, bad_range, writing, sizing};
ghost use Rattle.sizes.specs.SizeParts.{capped};
ghost use Rattle.segment.specs.Judging.{Judges, outside};

use super::{FRONT, FRONT_SIZE, RANGE_END, RANGE_STRIDE};
use copy::put_bytes;
use sizes::{by_size, compute_raw_varint64_size, cut};
use spec::answers::Unwritten;
use spec::limits;
use spec::refusals::Refusal;
use wire::varint::encode::put_varint64;

// The size with one message more, of n bytes: it is cut off just above the limit, so no sum can wrap. A test on n takes three instructions a message less than
// `cut` of it.
fn grown(size: u64, n: u64) -> u64
    requires { size ≤ limit + 1 }
    ensures { result ≡ capped (size + (n + length (encode n))) }
{
    if limits::LIMIT < n {
        return limits::LIMIT + 1;
    }
    cut(size + (compute_raw_varint64_size(n) + n))
}

// The refusal of a range that does not lie in the payload.
fn outside(index: usize) -> Unwritten
    ensures { result ≡ outside index }
{
    Unwritten {
        refusal: Refusal::InvalidList,
        size: 0,
        index,
    }
}

// The size of the segment of some ranges, cut off just above the limit. A remainder of one number is a range that lies nowhere.
fn judge(ranges: &[u64], payload: &[u8]) -> Result<u64, Unwritten>
    ensures { Judges payload.now (ranges_of ranges.now) result }
{
    let all = payload.len() as u64;
    let mut size = FRONT_SIZE as u64;
    for (index, range) in ranges.chunks(RANGE_STRIDE).enumerate() {
        let [start, end, ..] = *range else {
            return Err(outside(index));
        };
        if end < start || all < end {
            return Err(outside(index));
        }
        size = grown(size, end - start);
    }
    Ok(size)
}

// One message after its length, at a position of the output; the position after it.
fn put_message(message: &[u8], out: &mut [u8], at: usize) -> usize
    requires { at + length (prefixed message.now) ≤ length out.old }
    ensures { (result ≡ at + length (prefixed message.now)) × (out.new ≡ sets out.old at (prefixed message.now)) }
{
    let next = put_varint64(message.len() as u64, out, at).unwrap();
    put_bytes(message, out, next);
    next + message.len()
}

// The front and the messages, from left to right, where the output has room for all.
fn put_segment(ranges: &[u64], payload: &[u8], out: &mut [u8])
    requires { (bad_range 0 payload.now (ranges_of ranges.now) ≡ none) × (length (segment (contents_of payload.now (ranges_of ranges.now))) ≤ length out.old) }
    ensures { out.new ≡ sets out.old 0 (segment (contents_of payload.now (ranges_of ranges.now))) }
{
    out[..FRONT_SIZE].copy_from_slice(&FRONT);
    let mut at = FRONT_SIZE;
    for range in ranges.chunks_exact(RANGE_STRIDE) {
        let start = range[0] as usize;
        let end = range[RANGE_END] as usize;
        at = put_message(&payload[start..end], out, at);
    }
}

// The size of the segment of some ranges, two numbers a range: as `write` answers where there is all the room that can be needed.
pub fn size(ranges: &[u64], payload: &[u8]) -> Result<usize, Unwritten>
    ensures { (written_number result ≡ number (sizing payload.now (ranges_of ranges.now)))
        × (written_size result ≡ size (sizing payload.now (ranges_of ranges.now)))
        × (written_index result ≡ index (sizing payload.now (ranges_of ranges.now))) }
{
    by_size(limits::LIMIT, judge(ranges, payload)?)
}

// Writes the segment of some ranges of the payload to the front of the output, whole or not at all.
pub fn write(ranges: &[u64], payload: &[u8], out: &mut [u8]) -> Result<usize, Unwritten>
    ensures { (written_number result ≡ number (writing (length out.old) payload.now (ranges_of ranges.now)))
        × (written_size result ≡ size (writing (length out.old) payload.now (ranges_of ranges.now)))
        × (written_index result ≡ index (writing (length out.old) payload.now (ranges_of ranges.now)))
        × (out.new ≡ output (writing (length out.old) payload.now (ranges_of ranges.now)) out.old) }
{
    let size = by_size(out.len() as u64, judge(ranges, payload)?)?;
    put_segment(ranges, payload, out);
    Ok(size)
}
