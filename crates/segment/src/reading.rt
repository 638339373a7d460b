// A segment to the ranges of its messages, in lent room.
ghost use Rattle.std.specs.Prelude.{◌≡◌, ℕ, ◌/◌, ◌%◌, ◌≤◌, length, drop, OnOk};
ghost use Rattle.spec.specs.Told.{read_number, read_place, read_count};
ghost use Rattle.segment.specs.Segment.{front_size, range_stride, split, within, reading, number, place, listed, room_after};
ghost use Rattle.segment.specs.Emit.{Further, Told, after_front};

use super::{FRONT, FRONT_SIZE, MARK_SIZE, RANGE_END, RANGE_STRIDE};
use spec::answers::Stopped;
use spec::limits;
use spec::refusals::Refusal;
use wire::varint::decode::decode_varint32;

// Where a reader is: `at` in the bytes, with `to` numbers of the room in use.
#[derive(Drop)]
struct Spot {
    at: usize,
    to: usize,
}

// What stands at the front is refused, or it is not.
fn check_front(s: &[u8]) -> Result<(), Refusal>
    ensures reads { (room : ℕ) → reading room s.now ≡ after_front result (within room (split front_size (drop front_size s.now))) }
    ensures long { OnOk result (front_size ≤ length s.now) }
{
    if s.len() < FRONT_SIZE || !s.starts_with(&FRONT[..MARK_SIZE]) {
        return Err(Refusal::BadMark);
    }
    if !s.starts_with(&FRONT) {
        return Err(Refusal::OtherVersion);
    }
    if limits::MOST_BYTES < s.len() {
        return Err(Refusal::TooLarge);
    }
    Ok(())
}

// The room's places count numbers; a caller counts ranges.
fn stopped(refusal: Refusal, to: usize, place: usize) -> Stopped
    ensures { result ≡ record { refusal = refusal; count = to / range_stride; place = place } }
{
    Stopped {
        refusal,
        count: to / RANGE_STRIDE,
        place,
    }
}

// The messages whose lengths have up to three bytes, one after the other, where three bytes are left: most of a segment. It stops before whatever is not so, a fault
// included, and the caller goes on from there. A byte after which another comes is 128 above its digit: what that adds to the length, 128 or 128 * 128, is taken off.
fn quick(s: &[u8], room: &mut [u64], most: usize, from: usize, used: usize) -> Spot
    requires { (front_size ≤ length s.now) × (from ≤ length s.now) × (most ≤ length room.old) × (most % range_stride ≡ 0)
        × (used ≤ most) × (used % range_stride ≡ 0) }
    ensures { Further s.now most room.old from used room.new result.at result.to }
{
    let last = s.len() - 2;
    let mut at = from;
    let mut to = used;
    while at < last {
        if most <= to {
            return Spot { at, to };
        }
        let b0 = s[at] as usize;
        let b1 = s[at + 1] as usize;
        let mut n = b0;
        let mut next = at + 1;
        if 128 <= b0 {
            n = n + b1 * 128 - 128;
            next = at + 2;
            if 128 <= b1 {
                let b2 = s[at + 2] as usize;
                if 128 <= b2 {
                    return Spot { at, to };
                }
                n = n + b2 * 0x4000 - 0x4000;
                next = at + 3;
            }
        }
        if s.len() - next < n {
            return Spot { at, to };
        }
        let end = next + n;
        room[to] = next as u64;
        room[to + RANGE_END] = end as u64;
        to += RANGE_STRIDE;
        at = end;
    }
    Spot { at, to }
}

// The messages after the front, one after the other.
fn messages(s: &[u8], room: &mut [u64]) -> Result<usize, Stopped>
    requires { front_size ≤ length s.now }
    ensures { Told (within (length room.old / range_stride) (split front_size (drop front_size s.now))) room.old result room.new }
{
    let most = room.len() / RANGE_STRIDE * RANGE_STRIDE;
    let mut at = FRONT_SIZE;
    let mut to: usize = 0;
    while at < s.len() {
        let q = quick(s, room, most, at, to);
        at = q.at;
        to = q.to;
        if s.len() <= at {
            break;
        }
        let f = match decode_varint32(s, at) {
            Ok(f) => f,
            Err(refusal) => return Err(stopped(refusal, to, at)),
        };
        let n = f.value as usize;
        if s.len() - f.next < n {
            return Err(stopped(Refusal::EndsEarly, to, at));
        }
        if most <= to {
            return Err(stopped(Refusal::NoRoom, to, at));
        }
        let end = f.next + n;
        room[to] = f.next as u64;
        room[to + RANGE_END] = end as u64;
        to += RANGE_STRIDE;
        at = end;
    }
    Ok(to / RANGE_STRIDE)
}

// Reads a segment to the ranges of its messages, two numbers a range, at the front of the room. The answer: how many ranges there are.
pub fn read(s: &[u8], room: &mut [u64]) -> Result<usize, Stopped>
    ensures { (read_number result ≡ number (reading (length room.old / range_stride) s.now))
        × (read_place result ≡ place (reading (length room.old / range_stride) s.now))
        × (read_count result ≡ length (listed (reading (length room.old / range_stride) s.now)))
        × (room.new ≡ room_after (reading (length room.old / range_stride) s.now) room.old) }
{
    if let Err(refusal) = check_front(s) {
        return Err(stopped(refusal, 0, 0));
    }
    messages(s, room)
}
