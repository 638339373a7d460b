// Segment files: a file of messages to their ranges, and ranges of a payload to a file.
ghost use Rattle.std.specs.Prelude.{◌≡◌, [], ◌∷◌, ◌/◌, length};
ghost use Rattle.spec.specs.Writing as writer;
ghost use Rattle.segment.specs.Segment.{range_stride, ranges_of, reading, number, place, listed, room_after, writing, sizing};

use crate::told;

// The messages of the segment s: how many ranges stand in the room, two numbers each, and the place of the refusal.
pub fn calf_segment_read(s: &[u8], room: &mut [u64], answer: &mut [u64; 2]) -> u32
    ensures { (result ≡ number (reading (length room.old / range_stride) s.now))
        × (answer.new ≡ length (listed (reading (length room.old / range_stride) s.now))
        ∷ place (reading (length room.old / range_stride) s.now) ∷ [])
        × (room.new ≡ room_after (reading (length room.old / range_stride) s.now) room.old) }
{
    told::read(segment::read(s, room), answer)
}

// How many bytes the segment of some ranges of the payload takes, and the index of the first range that does not lie in it.
pub fn calf_segment_size(ranges: &[u64], payload: &[u8], answer: &mut [u64; 2]) -> u32
    ensures { (result ≡ writer.number (sizing payload.now (ranges_of ranges.now)))
        × (answer.new ≡ writer.size (sizing payload.now (ranges_of ranges.now))
        ∷ writer.index (sizing payload.now (ranges_of ranges.now)) ∷ []) }
{
    told::written(segment::size(ranges, payload), answer)
}

// Writes the segment of some ranges of the payload to the front of `out`: how many bytes it takes, and the index of the first range that does not lie in it.
pub fn calf_segment_write(
    ranges: &[u64],
    payload: &[u8],
    out: &mut [u8],
    answer: &mut [u64; 2],
) -> u32
    ensures { (result ≡ writer.number (writing (length out.old) payload.now (ranges_of ranges.now)))
        × (answer.new ≡ writer.size (writing (length out.old) payload.now (ranges_of ranges.now))
        ∷ writer.index (writing (length out.old) payload.now (ranges_of ranges.now)) ∷ [])
        × (out.new ≡ writer.output (writing (length out.old) payload.now (ranges_of ranges.now)) out.old) }
{
    told::written(segment::write(ranges, payload, out), answer)
}
