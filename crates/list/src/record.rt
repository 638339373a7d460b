// One record in its place: its number and kind, its value, and what only records of wire type 2 have.
ghost use Rattle.std.specs.Prelude.{◌≡◌, ◌+◌, ◌*◌, ◌%◌, ◌≤◌, ◌<◌, length, drop, take, get_or};
ghost use Rattle.spec.specs.Writing.{other_fault};
ghost use Rattle.spec.specs.Names.{delimited_wire, kind_column, most_levels, most_types, record_kinds};
ghost use Rattle.spec.specs.Kind.{Scalar, one, shape, fits, wires, wire};
ghost use Rattle.spec.specs.Record.{records_of, stride, record_at};
ghost use Rattle.schema.specs.Layout.{guesses, owner_unit};
ghost use Rattle.list.specs.Checking.{range_fault, signed32_kind, unsigned32_kind, Answers, fault_number};

use schema::layout::{GUESSES, INFO, INNERS_AT, KEYS, KINDS_AT, OWNER_UNIT};
use schema::says;
use spec::columns::{END, START, STRIDE, VALUE};
use spec::kinds::RECORD_KINDS;
use spec::refusals::Refusal;
use spec::{kinds, limits, wire_types};
use utf8::is_utf8;

// Limits as numbers of a list: the largest field number, the depth of the deepest message heads, the last kind of a record.
const LARGEST_NUMBER: u64 = limits::LARGEST_NUMBER as u64;

const DEEPEST_HEAD: u64 = limits::MOST_LEVELS as u64 - 1;

const LAST_KIND: u64 = kinds::UNKNOWN_FIXED32;

// The field numbers below this one have guesses.
const GUESSED_NUMBERS: u64 = GUESSES as u64;

// How many types there may be, as a byte.
const TYPES: u8 = limits::MOST_TYPES as u8;

// How many numbers two records have.
const TWO_RECORDS: usize = 2 * STRIDE;

// A message type, the number at which the keys of its entries start, and the place of its first guess: the last two are kept, as they stay the
// same from record to record. There are no more types than TYPES.
#[derive(Clone, Copy)]
pub(crate) struct Owner {
    ty: u8,
    base: u64,
    first: usize,
    ghost keys_from: { base ≡ ty * owner_unit },
    ghost guesses_from: { first ≡ ty % most_types * guesses },
}

impl Owner {
    pub(crate) fn of(ty: u8) -> Owner
        ensures { result.ty ≡ ty }
    {
        Owner {
            ty,
            base: u64::from(ty) * OWNER_UNIT,
            first: usize::from(ty % TYPES) * GUESSES,
        }
    }
}

// What a record of this number and kind opens, by the search of any number, where there is such a tag.
fn search(
    keys: &[u64; KEYS],
    info: &[u8; INFO],
    ty: u8,
    number: u64,
    kind: u64,
    w: u8,
) -> Option<u8>
    requires { (w ≡ wire kind) × (kind < record_kinds) }
    ensures { Answers keys.now info.now ty number kind result }
{
    if number == 0 || LARGEST_NUMBER < number || wire_types::FIXED32 < w {
        return None;
    }
    let said = says(keys, info, u32::from(ty), number as u32 * 8 + u32::from(w));
    if u64::from(said.kind) != kind {
        return None;
    }
    Some(said.inner)
}

// Of a record in a message of this type whose number and kind are what reading would give: the type of a message's fields, or the kind of a packed field's
// elements. It is found by a guess at its entry, which the keys confirm or not.
pub(crate) fn ask(
    table: &[u8; RECORD_KINDS],
    keys: &[u64; KEYS],
    info: &[u8; INFO],
    owner: Owner,
    number: u64,
    kind: u64,
) -> Option<u8>
    requires { table.now ≡ take record_kinds wires }
    ensures { Answers keys.now info.now owner.ty number kind result }
{
    if LAST_KIND < kind {
        return None;
    }
    let w = table[kind as usize];
    if number < GUESSED_NUMBERS {
        let i = usize::from(info[owner.first + number as usize]);
        if keys[i] == owner.base + number * 8 + u64::from(w) {
            if u64::from(info[KINDS_AT + i]) != kind {
                return None;
            }
            return Some(info[INNERS_AT + i]);
        }
    }
    search(keys, info, owner.ty, number, kind, w)
}

// The kinds whose values have 32 signed bits, and those whose values have 32 bits.
fn is_signed32(kind: u64) -> bool
    ensures { result ≡ signed32_kind kind }
{
    kind == kinds::INT32 || kind == kinds::ENUM || kind == kinds::SFIXED32 || kind == kinds::SINT32
}

fn is_unsigned32(kind: u64) -> bool
    ensures { result ≡ unsigned32_kind kind }
{
    kind == kinds::FLOAT
        || kind == kinds::FIXED32
        || kind == kinds::UINT32
        || kind == kinds::UNKNOWN_FIXED32
}

// Whether a value fits its kind, which is one number. The first test is for the most frequent values.
pub(crate) fn value_fits(kind: u64, v: u64) -> bool
    ensures { (c : Scalar) → shape kind ≡ one c → result ≡ fits c v }
{
    if v < 2 {
        true
    } else if kind == kinds::BOOL {
        false
    } else if v < limits::BEYOND_INT32 {
        true
    } else if is_signed32(kind) {
        limits::LEAST_INT32 <= v
    } else if is_unsigned32(kind) {
        v < limits::BEYOND_UINT32
    } else {
        true
    }
}

// Whether a content's range lies in the payload, and a string is UTF-8.
#[tactic(auto, unfolding(crate::specs::Checking::range_fault))]
fn range_fault(payload: &[u8], kind: u64, start: u64, end: u64) -> Result<(), Refusal>
    ensures { fault_number result ≡ range_fault payload.now kind start end }
{
    if end < start || (payload.len() as u64) < end {
        return Err(Refusal::InvalidList);
    }
    if kind == kinds::STRING && !is_utf8(&payload[start as usize..end as usize]) {
        return Err(Refusal::NotUtf8);
    }
    Ok(())
}

// The same of the record at a place, of wire type 2, whose number and kind are as expected.
pub(crate) fn delimited_fault(
    list: &[u64],
    payload: &[u8],
    at: usize,
    kind: u64,
    depth: u64,
) -> Result<(), Refusal>
    requires { (at + stride ≤ length list.now) × (kind ≡ get_or list.now (at + kind_column) 0) × (depth ≡ get_or list.now at 0) × (depth ≤ most_levels) × (wire kind ≡ delimited_wire) }
    ensures { fault_number result ≡ other_fault payload.now (record_at list.now at) (records_of (drop (at + stride) list.now)) }
{
    if list[at + VALUE] != 0 {
        return Err(Refusal::InvalidList);
    }
    if kind == kinds::MESSAGE {
        if DEEPEST_HEAD < depth {
            return Err(Refusal::TooDeep);
        }
        return Ok(());
    }
    if kind == kinds::PACKED_HEAD {
        if list.len() - at < TWO_RECORDS || list[at + STRIDE] != depth + 1 {
            return Err(Refusal::InvalidList);
        }
        return Ok(());
    }
    range_fault(payload, kind, list[at + START], list[at + END])
}
