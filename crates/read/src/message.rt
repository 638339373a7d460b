// The fields of a message to records.
ghost use Rattle.std.specs.Prelude.{◌≡◌, ◌+◌, ◌^◌, ◌≤◌, ◌<◌, length, drop};
ghost use Rattle.spec.specs.Names.{most_levels, most_types};
ghost use Rattle.spec.specs.declared.Mode.{Mode};
ghost use Rattle.spec.specs.Reading.{records, read};
ghost use Rattle.schema.specs.Tables.{table_says};
ghost use Rattle.read.specs.Answers.{Held, Tells, row_field, skipped_row};
ghost use Rattle.read.specs.Emit.{left, emit, Further};
ghost use Rattle.read.specs.Prepared.{prepared};

use crate::classify::{Field, Row, field_at, refused_at};
use crate::packed::packed;
use crate::room::{Spot, Stop, put, put_span};
use crate::scalar::{ShortVarint, meaning_of, short_at};
use schema::layout;
use skip::unknown_or_group::skip_unknown_group;
use spec::columns::STRIDE;
use spec::refusals::Refusal;
use spec::{Mode, kinds, limits, wire_types};

// The kind of the field whose tag is the one byte c, of the wire type of varints. Number 0 is tested last: no table of a schema has a key for it.
fn int_kind(keys: &[u64; layout::KEYS], info: &[u8; layout::INFO], c: u8, ty: u32) -> Option<u64>
    requires { ty < most_types }
    ensures { Tells (table_says keys.now info.now ty) c result }
{
    if c % 8 == wire_types::VARINT && c < 128 {
        let number = c / 8;
        let i = usize::from(info[ty as usize * layout::GUESSES + usize::from(number)]);
        if keys[i] == u64::from(ty) * layout::OWNER_UNIT + u64::from(c) && 0 < number {
            return Some(u64::from(info[layout::KINDS_AT + i]));
        }
    }
    None
}

// Reads on while fields are short varints with a tag of one byte, and there is room. Whatever it leaves, `message` does.
fn short_ints(
    keys: &[u64; layout::KEYS],
    info: &[u8; layout::INFO],
    s: &[u8],
    off: usize,
    ty: u32,
    depth: u32,
    room: &mut [u64],
    from: Spot,
) -> Spot
    requires { (from.at < length s.now) × (off + length s.now < 2 ^ 64) × (from.to ≤ length room.old) × (ty < most_types) }
    ensures { (mode : Mode) → Further (length s.now) (λ at. read (prepared mode keys.now info.now) depth ty (off + at) (drop at s.now))
        room.old from.at from.to room.new result.at result.to }
{
    let mut at = from.at;
    let mut to = from.to;
    // first, as a field with a content returns here: all that follows is needed by the loop alone
    if s[at] % 8 != wire_types::VARINT {
        return Spot { at, to };
    }
    let last = s.len() - 1;
    if room.len() < STRIDE {
        return Spot { at, to };
    }
    // the last place where a record has room: one bound for the whole loop, which keeps a register free
    let most = room.len() - STRIDE;
    // `off + at`, kept beside `at`: a record costs one addition less
    let mut here = off + at;
    while at < last {
        if most < to {
            return Spot { at, to };
        }
        let c = s[at];
        let Some(kind) = int_kind(keys, info, c, ty) else {
            return Spot { at, to };
        };
        let Some(ShortVarint { value, size }) = short_at(s, at + 1) else {
            return Spot { at, to };
        };
        let Some(v) = meaning_of(kind, value) else {
            return Spot { at, to };
        };
        let n = size + 1;
        let tag = here;
        here += n;
        at += n;
        to = put(
            room,
            to,
            depth,
            u64::from(c / 8),
            kind,
            v,
            tag + 1,
            here,
            tag,
        );
    }
    Spot { at, to }
}

// A group that was skipped up to `end`, as the row of an empty packed field: both are dropped in the same way.
fn skipped(number: u64, end: usize) -> Row
    ensures { result ≡ skipped_row number end }
{
    Row {
        number,
        kind: kinds::PACKED_HEAD,
        inner: 0,
        value: 0,
        start: end,
        end,
    }
}

// Does what a field asks, whose tag is at `at`: stores its record, and for a head what lies below it.
#[cycle(message_store)]
fn store(
    keys: &[u64; layout::KEYS],
    info: &[u8; layout::INFO],
    s: &[u8],
    off: usize,
    at: usize,
    depth: u32,
    mode: Mode,
    f: Row,
    room: &mut [u64],
    from: usize,
) -> Result<usize, Stop>
    requires { (depth ≤ most_levels) × (off + length s.now < 2 ^ 64) × (from ≤ length room.old) × Held depth at (length s.now) f }
    ensures { left result room.new ≡ emit room.old from
        (records mode (read (prepared mode keys.now info.now) (depth + 1)) depth (off + at) (drop at s.now) (row_field at f)) }
{
    let start = f.start;
    let end = f.end;
    let kind = f.kind;
    if kind == kinds::PACKED_HEAD {
        if start == end {
            return put_span(mode, depth, f.number, off + at, off + end, room, from);
        }
    }
    if room.len() - from < STRIDE {
        return Err(Stop {
            refusal: Refusal::NoRoom,
            to: from,
            place: off + at,
        });
    }
    let to = put(
        room,
        from,
        depth,
        f.number,
        kind,
        f.value,
        off + start,
        off + end,
        off + at,
    );
    if kind == kinds::MESSAGE {
        return message(
            keys,
            info,
            &s[start..end],
            off + start,
            f.inner,
            depth + 1,
            mode,
            room,
            to,
        );
    }
    if kind == kinds::PACKED_HEAD {
        return packed(
            &s[start..end],
            off + start,
            off + at,
            depth + 1,
            f.number,
            u64::from(f.inner),
            room,
            to,
        );
    }
    Ok(to)
}

// Stores the fields of the message s, which is at `off`, after the first `from` numbers of the room.
#[cycle(message_store)]
pub(crate) fn message(
    keys: &[u64; layout::KEYS],
    info: &[u8; layout::INFO],
    s: &[u8],
    off: usize,
    ty: u32,
    depth: u32,
    mode: Mode,
    room: &mut [u64],
    from: usize,
) -> Result<usize, Stop>
    requires { (depth ≤ most_levels) × (off + length s.now < 2 ^ 64) × (from ≤ length room.old) }
    ensures { left result room.new ≡ emit room.old from (read (prepared mode keys.now info.now) depth ty off s.now) }
{
    let mut at: usize = 0;
    let mut to = from;
    while at < s.len() {
        if ty < limits::MOST_TYPES {
            let x = short_ints(keys, info, s, off, ty, depth, room, Spot { at, to });
            at = x.at;
            to = x.to;
            if at == s.len() {
                return Ok(to);
            }
        }
        let field = match field_at(keys, info, s, at, ty, depth) {
            Ok(field) => field,
            Err(refusal) => {
                let place = off + refused_at(s, at, refusal.number());
                return Err(Stop { refusal, to, place });
            }
        };
        let f = match field {
            Field::Of(f) => f,
            Field::Group { number, next } => match skip_unknown_group(s, next, depth) {
                Ok(end) => skipped(number, end),
                Err(refusal) => {
                    return Err(Stop {
                        refusal,
                        to,
                        place: off + at,
                    });
                }
            },
        };
        to = store(keys, info, s, off, at, depth, mode, f, room, to)?;
        at = f.end;
    }
    Ok(to)
}
