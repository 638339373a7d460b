// A message to records in lent room. A reading answers how many records it stored.
#![tactic(auto)]

ghost use Rattle.std.specs.Prelude.{◌≡◌, length, ◌/◌};
ghost use Rattle.std.proofs.Math.Option.{none};
ghost use Rattle.spec.specs.Record.{stride};
ghost use Rattle.spec.specs.Schema.{schema_of};
ghost use Rattle.spec.specs.Reading.{plainly, reading, reading_as, reading_by, number, place, listed, room_after};
ghost use Rattle.spec.specs.Told.{read_number, read_place, read_count};
ghost use Rattle.read.specs.Emit.{counted};
ghost use Rattle.read.specs.Prepared.{prepared};

pub mod classify;
mod message;
mod packed;
mod room;
mod scalar;

use crate::message::message;
use crate::room::Stop;
use schema::{layout, note_entries};
use spec::answers::Stopped;
use spec::refusals::Refusal;
use spec::{Mode, columns, limits};

const TOO_LARGE: Stopped = Stopped {
    refusal: Refusal::TooLarge,
    count: 0,
    place: 0,
};

// The room's places count numbers; a caller counts records.
impl From<Stop> for Stopped {
    ghost from_gives = { λ e r. r ≡ counted e };

    fn from(e: Stop) -> Stopped {
        Stopped {
            refusal: e.refusal,
            count: e.to / columns::STRIDE,
            place: e.place,
        }
    }
}

// Reads the message `s` in this mode, under the tables of a schema, which a caller with many messages makes once. Any arrays are tables.
pub fn read_prepared_as(
    mode: Mode,
    keys: &[u64; layout::KEYS],
    info: &[u8; layout::INFO],
    s: &[u8],
    room: &mut [u64],
) -> Result<usize, Stopped>
    ensures { (read_number result ≡ number (reading_by none (prepared mode keys.now info.now) (length room.old / stride) s.now))
        × (read_place result ≡ place (reading_by none (prepared mode keys.now info.now) (length room.old / stride) s.now))
        × (read_count result ≡ length (listed (reading_by none (prepared mode keys.now info.now) (length room.old / stride) s.now)))
        × (room.new ≡ room_after (reading_by none (prepared mode keys.now info.now) (length room.old / stride) s.now) room.old) }
{
    if limits::MOST_BYTES < s.len() {
        return Err(TOO_LARGE);
    }
    let to = message(keys, info, s, 0, 0, 0, mode, room, 0)?;
    Ok(to / columns::STRIDE)
}

// The same, where what is dropped gives no record.
pub fn read_prepared(
    keys: &[u64; layout::KEYS],
    info: &[u8; layout::INFO],
    s: &[u8],
    room: &mut [u64],
) -> Result<usize, Stopped>
    ensures { (read_number result ≡ number (reading_by none (prepared plainly keys.now info.now) (length room.old / stride) s.now))
        × (read_place result ≡ place (reading_by none (prepared plainly keys.now info.now) (length room.old / stride) s.now))
        × (read_count result ≡ length (listed (reading_by none (prepared plainly keys.now info.now) (length room.old / stride) s.now)))
        × (room.new ≡ room_after (reading_by none (prepared plainly keys.now info.now) (length room.old / stride) s.now) room.old) }
{
    read_prepared_as(Mode { dropped: false }, keys, info, s, room)
}

// Reads the message `s` in this mode, under a schema whose entries are lent as numbers, one entry after the other.
pub fn read_as(
    mode: Mode,
    types: u32,
    numbers: &[u32],
    s: &[u8],
    room: &mut [u64],
) -> Result<usize, Stopped>
    ensures { (read_number result ≡ number (reading_as mode (schema_of types numbers.now) (length room.old / stride) s.now))
        × (read_place result ≡ place (reading_as mode (schema_of types numbers.now) (length room.old / stride) s.now))
        × (read_count result ≡ length (listed (reading_as mode (schema_of types numbers.now) (length room.old / stride) s.now)))
        × (room.new ≡ room_after (reading_as mode (schema_of types numbers.now) (length room.old / stride) s.now) room.old) }
{
    if limits::MOST_BYTES < s.len() {
        return Err(TOO_LARGE);
    }
    let mut keys: [u64; layout::KEYS] = [layout::NO_KEY; layout::KEYS];
    let mut info: [u8; layout::INFO] = [0; layout::INFO];
    note_entries(types, numbers, &mut keys, &mut info)?;
    read_prepared_as(mode, &keys, &info, s, room)
}

// The same, where what is dropped gives no record.
pub fn read(types: u32, numbers: &[u32], s: &[u8], room: &mut [u64]) -> Result<usize, Stopped>
    ensures { (read_number result ≡ number (reading (schema_of types numbers.now) (length room.old / stride) s.now))
        × (read_place result ≡ place (reading (schema_of types numbers.now) (length room.old / stride) s.now))
        × (read_count result ≡ length (listed (reading (schema_of types numbers.now) (length room.old / stride) s.now)))
        × (room.new ≡ room_after (reading (schema_of types numbers.now) (length room.old / stride) s.now) room.old) }
{
    read_as(Mode { dropped: false }, types, numbers, s, room)
}
