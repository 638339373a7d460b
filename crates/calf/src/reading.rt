// A schema, and a message to records.
ghost use Rattle.std.specs.Prelude.{◌≡◌, true, [], ◌∷◌, ◌/◌, length};
ghost use Rattle.std.proofs.Math.Option.{none};
ghost use Rattle.spec.specs.Record.{stride};
ghost use Rattle.spec.specs.Schema.{bad_schema, schema_of};
ghost use Rattle.spec.specs.Reading.{plainly, asking, reading, reading_as, reading_by, number, place, listed, room_after};
ghost use Rattle.schema.specs.Tables.{keys_of, info_of};
ghost use Rattle.read.specs.Prepared.{prepared};
ghost use Rattle.calf.specs.Told.{number_of, entry_of};

use crate::told;
use schema::layout::{INFO, KEYS};
use spec::{Mode, columns};

// How many numbers a record has in lent room and in a list.
pub fn calf_record_numbers() -> usize
    ensures { result ≡ stride }
{
    columns::STRIDE
}

// Whether a schema of five numbers an entry is valid: the first bad entry.
pub fn calf_check_schema(types: u32, numbers: &[u32], answer: &mut [u64; 1]) -> u32
    ensures { (result ≡ number_of (bad_schema (schema_of types numbers.now)))
        × (answer.new ≡ entry_of (bad_schema (schema_of types numbers.now)) ∷ []) }
{
    told::valid(schema::check(types, numbers), answer)
}

// The tables of a schema, for `calf_read_prepared` and `calf_read_prepared_dropped`: of the entries before the first bad one where it is not valid.
pub fn calf_prepare(
    types: u32,
    numbers: &[u32],
    keys: &mut [u64; KEYS],
    info: &mut [u8; INFO],
    answer: &mut [u64; 1],
) -> u32
    ensures { (result ≡ number_of (bad_schema (schema_of types numbers.now)))
        × (answer.new ≡ entry_of (bad_schema (schema_of types numbers.now)) ∷ [])
        × (keys.new ≡ keys_of (schema_of types numbers.now))
        × (info.new ≡ info_of (schema_of types numbers.now)) }
{
    told::valid(schema::tables(types, numbers, keys, info), answer)
}

// ---- reading

// The message s under a schema of five numbers an entry: how many records stand in the room, and the place of the refusal.
pub fn calf_read(
    types: u32,
    numbers: &[u32],
    s: &[u8],
    room: &mut [u64],
    answer: &mut [u64; 2],
) -> u32
    ensures { (result ≡ number (reading (schema_of types numbers.now) (length room.old / stride) s.now))
        × (answer.new ≡ length (listed (reading (schema_of types numbers.now) (length room.old / stride) s.now))
        ∷ place (reading (schema_of types numbers.now) (length room.old / stride) s.now) ∷ [])
        × (room.new ≡ room_after (reading (schema_of types numbers.now) (length room.old / stride) s.now) room.old) }
{
    told::read(read::read(types, numbers, s, room), answer)
}

// The same under the tables of a schema, which a caller with many messages makes once by `calf_prepare`.
pub fn calf_read_prepared(
    keys: &[u64; KEYS],
    info: &[u8; INFO],
    s: &[u8],
    room: &mut [u64],
    answer: &mut [u64; 2],
) -> u32
    ensures { (result ≡ number (reading_by none (prepared plainly keys.now info.now) (length room.old / stride) s.now))
        × (answer.new ≡ length (listed (reading_by none (prepared plainly keys.now info.now) (length room.old / stride) s.now))
        ∷ place (reading_by none (prepared plainly keys.now info.now) (length room.old / stride) s.now) ∷ [])
        × (room.new ≡ room_after (reading_by none (prepared plainly keys.now info.now) (length room.old / stride) s.now) room.old) }
{
    told::read(read::read_prepared(keys, info, s, room), answer)
}

// ---- reading with dropped spans: what is dropped, a skipped group or an empty packed field, gives a record of kind 25 with its whole span

// As `calf_read`.
pub fn calf_read_dropped(
    types: u32,
    numbers: &[u32],
    s: &[u8],
    room: &mut [u64],
    answer: &mut [u64; 2],
) -> u32
    ensures { (result ≡ number (reading_as (asking true plainly) (schema_of types numbers.now) (length room.old / stride) s.now))
        × (answer.new ≡ length (listed (reading_as (asking true plainly) (schema_of types numbers.now) (length room.old / stride) s.now))
        ∷ place (reading_as (asking true plainly) (schema_of types numbers.now) (length room.old / stride) s.now) ∷ [])
        × (room.new ≡ room_after (reading_as (asking true plainly) (schema_of types numbers.now) (length room.old / stride) s.now) room.old) }
{
    told::read(
        read::read_as(Mode { dropped: true }, types, numbers, s, room),
        answer,
    )
}

// As `calf_read_prepared`.
pub fn calf_read_prepared_dropped(
    keys: &[u64; KEYS],
    info: &[u8; INFO],
    s: &[u8],
    room: &mut [u64],
    answer: &mut [u64; 2],
) -> u32
    ensures { (result ≡ number (reading_by none (prepared (asking true plainly) keys.now info.now) (length room.old / stride) s.now))
        × (answer.new ≡ length (listed (reading_by none (prepared (asking true plainly) keys.now info.now) (length room.old / stride) s.now))
        ∷ place (reading_by none (prepared (asking true plainly) keys.now info.now) (length room.old / stride) s.now) ∷ [])
        × (room.new ≡ room_after (reading_by none (prepared (asking true plainly) keys.now info.now) (length room.old / stride) s.now) room.old) }
{
    told::read(
        read::read_prepared_as(Mode { dropped: true }, keys, info, s, room),
        answer,
    )
}
