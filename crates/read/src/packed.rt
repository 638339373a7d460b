// The elements of a packed field to records.
ghost use Rattle.std.specs.Prelude.{◌≡◌, ◌+◌, ◌^◌, ◌≤◌, ◌<◌, length, drop, true};
ghost use Rattle.spec.specs.Kind.{shape, is_scalar};
ghost use Rattle.spec.specs.Reading.{contents};
ghost use Rattle.wire.specs.Answers.{as_read};
ghost use Rattle.read.specs.Answers.{scalar_of, is_int};
ghost use Rattle.read.specs.Emit.{left, emit, Further};

use crate::room::{Spot, Stop, put};
use crate::scalar::{ShortVarint, int_at, is_fixed, is_int, meaning_of, scalar_at, short_at};
use spec::columns::STRIDE;
use spec::refusals::Refusal;
use wire::found::Found;

// Reads on while elements are short and there is room. Whatever it leaves, `elements` does. `tag` is the place of the field's tag. `message::short_ints` has its own
// loop, as a field has a tag too: what both do is called.
fn short_elements(
    p: &[u8],
    off: usize,
    tag: usize,
    depth: u32,
    number: u64,
    kind: u64,
    room: &mut [u64],
    from: Spot,
) -> Spot
    requires { (from.at ≤ length p.now) × (off + length p.now < 2 ^ 64) × (from.to ≤ length room.old) }
    ensures { Further (length p.now) (λ at. contents (shape kind) depth number kind tag (off + at) (drop at p.now))
        room.old from.at from.to room.new result.at result.to }
{
    let mut at = from.at;
    let mut to = from.to;
    if room.len() < STRIDE {
        return Spot { at, to };
    }
    // the last place where a record has room: one bound for the whole loop, which keeps a register free
    let most = room.len() - STRIDE;
    // `off + at`, kept beside `at`
    let mut start = off + at;
    while at < p.len() {
        if most < to {
            return Spot { at, to };
        }
        let Some(ShortVarint { value, size }) = short_at(p, at) else {
            return Spot { at, to };
        };
        let Some(v) = meaning_of(kind, value) else {
            return Spot { at, to };
        };
        let end = start + size;
        at += size;
        to = put(room, to, depth, number, kind, v, start, end, tag);
        start = end;
    }
    Spot { at, to }
}

// An element at a place. `scalar_at` reads any: an integer is read with no look at its kind first.
fn element_at<const VARINTS: bool>(p: &[u8], at: usize, kind: u64) -> Result<Found, Refusal>
    requires { VARINTS ≡ is_int (shape kind) }
    ensures { as_read at result ≡ scalar_of (shape kind) (drop at p.now) }
{
    if VARINTS {
        return int_at(p, at, kind);
    }
    scalar_at(p, at, kind)
}

// The elements in the content p, which stands at `off`, after the first `from` numbers of the room; `tag` is the place of the field's tag.
fn elements<const VARINTS: bool>(
    p: &[u8],
    off: usize,
    tag: usize,
    depth: u32,
    number: u64,
    kind: u64,
    room: &mut [u64],
    from: usize,
) -> Result<usize, Stop>
    requires { (VARINTS ≡ is_int (shape kind)) × (is_scalar (shape kind) ≡ true) × (off + length p.now < 2 ^ 64) × (from ≤ length room.old) }
    ensures { left result room.new ≡ emit room.old from (contents (shape kind) depth number kind tag off p.now) }
{
    let mut at: usize = 0;
    let mut to = from;
    while at < p.len() {
        if VARINTS {
            let x = short_elements(p, off, tag, depth, number, kind, room, Spot { at, to });
            at = x.at;
            to = x.to;
            if at == p.len() {
                return Ok(to);
            }
        }
        match element_at::<VARINTS>(p, at, kind) {
            Ok(Found { value, next }) => {
                if room.len() - to < STRIDE {
                    return Err(Stop {
                        refusal: Refusal::NoRoom,
                        to,
                        place: tag,
                    });
                }
                to = put(
                    room,
                    to,
                    depth,
                    number,
                    kind,
                    value,
                    off + at,
                    off + next,
                    tag,
                );
                at = next;
            }
            Err(refusal) => {
                return Err(Stop {
                    refusal,
                    to,
                    place: tag,
                });
            }
        }
    }
    Ok(to)
}

// A kind that is not one number has no elements.
pub(crate) fn packed(
    p: &[u8],
    off: usize,
    tag: usize,
    depth: u32,
    number: u64,
    kind: u64,
    room: &mut [u64],
    from: usize,
) -> Result<usize, Stop>
    requires { (off + length p.now < 2 ^ 64) × (from ≤ length room.old) }
    ensures { left result room.new ≡ emit room.old from (contents (shape kind) depth number kind tag off p.now) }
{
    if is_int(kind) {
        return elements::<true>(p, off, tag, depth, number, kind, room, from);
    }
    if is_fixed(kind) {
        return elements::<false>(p, off, tag, depth, number, kind, room, from);
    }
    Ok(from)
}
