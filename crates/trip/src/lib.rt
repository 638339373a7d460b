// A message through an older reader: a list is written under the newer schema, read under the older one, and written again.
#![tactic(auto)]

ghost use Rattle.std.specs.Prelude.{◌≡◌};
ghost use Rattle.spec.specs.Schema.{schema_of};
ghost use Rattle.spec.specs.Told.{read_count};
ghost use Rattle.trip.specs.Copy.{PassedOn, Copied, Demanded, Unharmed};

use read::read;
use spec::answers::{Stopped, Unwritten};
use spec::columns;
use write::write;

// What the three steps answered.
#[derive(Clone, Copy, Debug, PartialEq, Eq)]
pub struct Trip {
    pub wrote: Result<usize, Unwritten>,
    pub read: Result<usize, Stopped>,
    pub again: Result<usize, Unwritten>,
}

// How many records stand in the room after a reading: those before the fault where it was refused.
fn stored(read: Result<usize, Stopped>) -> usize
    ensures { result ≡ read_count read }
{
    match read {
        Ok(count) => count,
        Err(stopped) => stopped.count,
    }
}

// Reads a message, and writes again what was read: the records that stand in the room then, with the message for their payload.
fn pass_on(
    types: u32,
    numbers: &[u32],
    message: &[u8],
    room: &mut [u64],
    again: &mut [u8],
) -> (Result<usize, Stopped>, Result<usize, Unwritten>)
    ensures { PassedOn (schema_of types numbers.now) message.now room.old again.old
        result.0 result.1 room.new again.new }
{
    let got = read(types, numbers, message, room);
    let records = &room[..stored(got) * columns::STRIDE];
    let rewrote = write(types, numbers, records, message, again);
    (got, rewrote)
}

// Writes the list under the newer schema, reads its bytes under the older one, and writes what was read under the older one again. Each schema
// has its own count of types, and five numbers an entry. Each step takes what the one before it left, also where that one was refused.
pub fn copy_onward(
    newer_types: u32,
    newer: &[u32],
    older_types: u32,
    older: &[u32],
    list: &[u64],
    payload: &[u8],
    bytes: &mut [u8],
    room: &mut [u64],
    again: &mut [u8],
) -> Trip
    ensures { Copied (schema_of newer_types newer.now) (schema_of older_types older.now) list.now payload.now
        bytes.old room.old again.old result bytes.new room.new again.new
        × (Demanded (schema_of newer_types newer.now) (schema_of older_types older.now) list.now payload.now
        bytes.old room.old again.old
        → Unharmed (schema_of older_types older.now) list.now payload.now result bytes.new room.new again.new) }
{
    let wrote = write(newer_types, newer, list, payload, bytes);
    let message = &bytes[..wrote.unwrap_or(0)];
    let (read, again) = pass_on(older_types, older, message, room, again);
    Trip { wrote, read, again }
}
