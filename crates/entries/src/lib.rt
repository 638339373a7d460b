// The calls over a schema that is lent as a slice of entry structs. Each call copies the entries once into numbers, and a function over numbers does
// the work; `lookup` goes over the entries themselves.
#![tactic(auto)]

ghost use Rattle.std.specs.Prelude.{◌≡◌, ◌+◌, ◌/◌, ◌<◌, ◌≤◌, length, min, take, drop};
ghost use Rattle.spec.specs.Names.{child_column, most_entries};
ghost use Rattle.spec.specs.Record.{records_of, stride};
ghost use Rattle.spec.specs.Reading.{reading, reading_as, number, place, listed, room_after};
ghost use Rattle.spec.specs.Schema.{entries_of, schema_of, place_of, entry_stride};
ghost use Rattle.spec.specs.Told.{read_number, read_place, read_count, written_number, written_size, written_index};
ghost use Rattle.spec.specs.Writing.{list_check, writing, sizing, output};
ghost use Rattle.spec.specs.Writing as writer;
ghost use Rattle.list.specs.Told.{as_verdict as verdict};
ghost use Rattle.schema.specs.Told.{place as entry_place};
ghost use Rattle.entries.specs.Copied.{one_more, made_entries, stored_at, copied_to, lent, entry_at, types_of, first_entries};

use spec::answers::{Fault, Stopped, Unwritten};
use spec::{Entry, Mode, columns, limits};

// The numbers of as many entries as a schema may have.
pub const MOST_NUMBERS: usize = schema::layout::MOST_NUMBERS;

// One entry more than a schema may have.
const ONE_MORE: usize = limits::MOST_ENTRIES + 1;

// An entry that no valid schema has.
pub const NO_ENTRY: Entry = Entry {
    owner: 0,
    number: 0,
    kind: 0,
    repeated: false,
    child: 0,
};

// The place of the first entry of this owner and number.
pub fn lookup(entries: &[Entry], owner: u32, number: u32) -> Option<usize>
    ensures { entry_place result ≡ place_of 0 entries.now owner number }
{
    entries
        .iter()
        .position(|e| e.owner == owner && e.number == number)
}

// Stores the five numbers of entry i. They go to places, and not through `chunks_mut`: of what its borrow leaves a proof knows only the length.
#[tactic(auto, using(crate::proofs::CopyLaws::byte_bit), unfolding(crate::specs::Copied::stored_at))]
fn put(numbers: &mut [u32; MOST_NUMBERS], i: usize, e: &Entry)
    requires { i < most_entries }
    ensures { numbers.new ≡ stored_at numbers.old i e.now }
{
    let k = i * columns::ENTRY_STRIDE;
    numbers[k] = e.owner;
    numbers[k + columns::ENTRY_NUMBER] = e.number;
    numbers[k + columns::ENTRY_KIND] = e.kind;
    numbers[k + columns::ENTRY_REPEATED] = u32::from(e.repeated);
    numbers[k + columns::ENTRY_CHILD] = e.child;
}

// Copies the entries, if they are no more than a schema may have: how many there are.
pub fn copy(entries: &[Entry], numbers: &mut [u32; MOST_NUMBERS]) -> usize
    ensures { (result ≡ length entries.now) × (numbers.new ≡ copied_to entries.now numbers.old) }
{
    if entries.len() <= limits::MOST_ENTRIES {
        for (i, e) in entries.iter().enumerate() {
            put(numbers, i, e);
        }
    }
    entries.len()
}

// Copies the entries, and lends the numbers of the copy that stand for them. Of more entries than a schema may have that is one number, which is no whole
// entry: a wrong count of entries, as theirs is.
fn lend<'a>(entries: &[Entry], numbers: &'a mut [u32; MOST_NUMBERS]) -> &'a [u32]
    ensures { result.now ≡ lent entries.now numbers.old }
{
    let count = copy(entries, numbers);
    if limits::MOST_ENTRIES < count {
        return &numbers[..1];
    }
    &numbers[..count * columns::ENTRY_STRIDE]
}

// Reads the message `s` in this mode, under a schema of these entries.
pub fn read_as(
    mode: Mode,
    types: u32,
    entries: &[Entry],
    s: &[u8],
    room: &mut [u64],
) -> Result<usize, Stopped>
    ensures { (read_number result ≡ number (reading_as mode (record { types = types; entries = entries.now }) (length room.old / stride) s.now))
        × (read_place result ≡ place (reading_as mode (record { types = types; entries = entries.now }) (length room.old / stride) s.now))
        × (read_count result ≡ length (listed (reading_as mode (record { types = types; entries = entries.now }) (length room.old / stride) s.now)))
        × (room.new ≡ room_after (reading_as mode (record { types = types; entries = entries.now }) (length room.old / stride) s.now) room.old) }
{
    // zeros: the compiler clears a local array at entry whatever is put in it, so that ones would be a loop besides
    let mut numbers = [0; MOST_NUMBERS];
    let lent = lend(entries, &mut numbers);
    read::read_as(mode, types, lent, s, room)
}

// The same, where what is dropped gives no record.
#[tactic(auto, unfolding(spec::specs::Reading::reading))]
pub fn read(types: u32, entries: &[Entry], s: &[u8], room: &mut [u64]) -> Result<usize, Stopped>
    ensures { (read_number result ≡ number (reading (record { types = types; entries = entries.now }) (length room.old / stride) s.now))
        × (read_place result ≡ place (reading (record { types = types; entries = entries.now }) (length room.old / stride) s.now))
        × (read_count result ≡ length (listed (reading (record { types = types; entries = entries.now }) (length room.old / stride) s.now)))
        × (room.new ≡ room_after (reading (record { types = types; entries = entries.now }) (length room.old / stride) s.now) room.old) }
{
    read_as(Mode { dropped: false }, types, entries, s, room)
}

// Checks a list of seven numbers a record, whose contents lie in `payload`, under a schema of these entries.
pub fn check(types: u32, entries: &[Entry], list: &[u64], payload: &[u8]) -> Result<(), Fault>
    ensures { verdict result ≡ list_check (record { types = types; entries = entries.now }) payload.now (records_of list.now) }
{
    let mut numbers = [0; MOST_NUMBERS];
    let lent = lend(entries, &mut numbers);
    list::check(types, lent, list, payload)
}

// How many bytes a list takes, under a schema of these entries.
pub fn size(types: u32, entries: &[Entry], list: &[u64], payload: &[u8]) -> Result<usize, Unwritten>
    ensures number { written_number result ≡ writer.number (sizing (record { types = types; entries = entries.now }) payload.now (records_of list.now)) }
    ensures size { written_size result ≡ writer.size (sizing (record { types = types; entries = entries.now }) payload.now (records_of list.now)) }
    ensures index { written_index result ≡ writer.index (sizing (record { types = types; entries = entries.now }) payload.now (records_of list.now)) }
{
    let mut numbers = [0; MOST_NUMBERS];
    let lent = lend(entries, &mut numbers);
    write::size(types, lent, list, payload)
}

// Writes a list to `out`, under a schema of these entries.
pub fn write(
    types: u32,
    entries: &[Entry],
    list: &[u64],
    payload: &[u8],
    out: &mut [u8],
) -> Result<usize, Unwritten>
    ensures number { written_number result ≡ writer.number (writing (record { types = types; entries = entries.now }) (length out.old) payload.now (records_of list.now)) }
    ensures size { written_size result ≡ writer.size (writing (record { types = types; entries = entries.now }) (length out.old) payload.now (records_of list.now)) }
    ensures index { written_index result ≡ writer.index (writing (record { types = types; entries = entries.now }) (length out.old) payload.now (records_of list.now)) }
    ensures output { out.new ≡ output (writing (record { types = types; entries = entries.now }) (length out.old) payload.now (records_of list.now)) out.old }
{
    let mut numbers = [0; MOST_NUMBERS];
    let lent = lend(entries, &mut numbers);
    write::write(types, lent, list, payload, out)
}

// ---- the same calls over five numbers an entry, for a caller that has no slice of entries to lend: the entries are made of the numbers, and lent

// The entry of the five numbers from place i on.
#[tactic(auto, unfolding(spec::specs::Schema::entry_of))]
fn entry_at(numbers: &[u32], i: usize) -> Entry
    requires { i + child_column < length numbers.now }
    ensures { result ≡ entry_at numbers.now i }
{
    let repeated = numbers[i + columns::ENTRY_REPEATED];
    if 1 < repeated {
        return NO_ENTRY;
    }
    Entry {
        owner: numbers[i],
        number: numbers[i + columns::ENTRY_NUMBER],
        kind: numbers[i + columns::ENTRY_KIND],
        repeated: repeated == 1,
        child: numbers[i + columns::ENTRY_CHILD],
    }
}

// Makes entries of the numbers at the front of the room, as many as there are or as the room holds: how many. The rest of the room stays as it was.
pub fn made(numbers: &[u32], room: &mut [Entry]) -> usize
    ensures count { result ≡ min (length numbers.now / entry_stride) (length room.old) }
    ensures front { take result room.new ≡ entries_of result numbers.now }
    ensures rest { drop result room.new ≡ drop result room.old }
{
    let count = (numbers.len() / columns::ENTRY_STRIDE).min(room.len());
    // by places: of what `iter_mut` leaves a proof knows only the length
    for i in 0..count {
        room[i] = entry_at(numbers, i * columns::ENTRY_STRIDE);
    }
    count
}

// The same for the calls below. Of numbers that are no whole entries none is made: their schema has no types, and is refused without a look at its entries.
fn made_whole(numbers: &[u32], room: &mut [Entry; ONE_MORE]) -> usize
    ensures count { result ≤ one_more }
    ensures front { take result room.new ≡ made_entries numbers.now }
{
    if numbers.len() % columns::ENTRY_STRIDE == 0 {
        made(numbers, room)
    } else {
        0
    }
}

// The type count that stands for so many numbers: 0 where they are no whole entries, as the definition `schema_of` has it.
#[tactic(auto, unfolding(crate::specs::Copied::types_of))]
fn type_count(types: u32, length: usize) -> u32
    ensures { result ≡ types_of types length }
{
    if length % columns::ENTRY_STRIDE == 0 {
        types
    } else {
        0
    }
}

// Reads the message `s` in this mode, under a schema of five numbers an entry.
pub fn read_numbers_as(
    mode: Mode,
    types: u32,
    numbers: &[u32],
    s: &[u8],
    room: &mut [u64],
) -> Result<usize, Stopped>
    ensures { (read_number result ≡ number (reading_as mode (schema_of types numbers.now) (length room.old / stride) s.now))
        × (read_place result ≡ place (reading_as mode (schema_of types numbers.now) (length room.old / stride) s.now))
        × (read_count result ≡ length (listed (reading_as mode (schema_of types numbers.now) (length room.old / stride) s.now)))
        × (room.new ≡ room_after (reading_as mode (schema_of types numbers.now) (length room.old / stride) s.now) room.old) }
{
    let mut made_in = [NO_ENTRY; ONE_MORE];
    let count = made_whole(numbers, &mut made_in);
    let entries = &made_in[..count];
    read_as(mode, type_count(types, numbers.len()), entries, s, room)
}

// The same, where what is dropped gives no record.
#[tactic(auto, unfolding(spec::specs::Reading::reading))]
pub fn read_numbers(
    types: u32,
    numbers: &[u32],
    s: &[u8],
    room: &mut [u64],
) -> Result<usize, Stopped>
    ensures { (read_number result ≡ number (reading (schema_of types numbers.now) (length room.old / stride) s.now))
        × (read_place result ≡ place (reading (schema_of types numbers.now) (length room.old / stride) s.now))
        × (read_count result ≡ length (listed (reading (schema_of types numbers.now) (length room.old / stride) s.now)))
        × (room.new ≡ room_after (reading (schema_of types numbers.now) (length room.old / stride) s.now) room.old) }
{
    read_numbers_as(Mode { dropped: false }, types, numbers, s, room)
}

// The place of the first entry of this owner and number, among as many as one more than a schema may have.
pub fn lookup_numbers(numbers: &[u32], owner: u32, number: u32) -> Option<usize>
    ensures { entry_place result ≡ place_of 0 (first_entries numbers.now) owner number }
{
    if numbers.len() % columns::ENTRY_STRIDE != 0 {
        return None;
    }
    let mut room = [NO_ENTRY; ONE_MORE];
    let count = made(numbers, &mut room);
    lookup(&room[..count], owner, number)
}

// Checks a list of seven numbers a record, whose contents lie in `payload`, under a schema of five numbers an entry.
pub fn check_numbers(types: u32, numbers: &[u32], list: &[u64], payload: &[u8]) -> Result<(), Fault>
    ensures { verdict result ≡ list_check (schema_of types numbers.now) payload.now (records_of list.now) }
{
    let mut made_in = [NO_ENTRY; ONE_MORE];
    let count = made_whole(numbers, &mut made_in);
    let entries = &made_in[..count];
    check(type_count(types, numbers.len()), entries, list, payload)
}

// How many bytes a list takes, under a schema of five numbers an entry.
pub fn size_numbers(
    types: u32,
    numbers: &[u32],
    list: &[u64],
    payload: &[u8],
) -> Result<usize, Unwritten>
    ensures number { written_number result ≡ writer.number (sizing (schema_of types numbers.now) payload.now (records_of list.now)) }
    ensures size { written_size result ≡ writer.size (sizing (schema_of types numbers.now) payload.now (records_of list.now)) }
    ensures index { written_index result ≡ writer.index (sizing (schema_of types numbers.now) payload.now (records_of list.now)) }
{
    let mut made_in = [NO_ENTRY; ONE_MORE];
    let count = made_whole(numbers, &mut made_in);
    let entries = &made_in[..count];
    size(type_count(types, numbers.len()), entries, list, payload)
}

// Writes a list to `out`, under a schema of five numbers an entry.
pub fn write_numbers(
    types: u32,
    numbers: &[u32],
    list: &[u64],
    payload: &[u8],
    out: &mut [u8],
) -> Result<usize, Unwritten>
    ensures number { written_number result ≡ writer.number (writing (schema_of types numbers.now) (length out.old) payload.now (records_of list.now)) }
    ensures size { written_size result ≡ writer.size (writing (schema_of types numbers.now) (length out.old) payload.now (records_of list.now)) }
    ensures index { written_index result ≡ writer.index (writing (schema_of types numbers.now) (length out.old) payload.now (records_of list.now)) }
    ensures output { out.new ≡ output (writing (schema_of types numbers.now) (length out.old) payload.now (records_of list.now)) out.old }
{
    let mut made_in = [NO_ENTRY; ONE_MORE];
    let count = made_whole(numbers, &mut made_in);
    let entries = &made_in[..count];
    write(
        type_count(types, numbers.len()),
        entries,
        list,
        payload,
        out,
    )
}
