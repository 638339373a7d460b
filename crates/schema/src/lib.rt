// A schema on numbers: valid or not, an entry by owner and number, and the tables that a reader makes once for each call.
// An entry is five numbers: owner, number, kind, repeated (0 or 1), child.
#![tactic(auto)]

ghost use Rattle.std.specs.Prelude.{ℕ, ◌≡◌, ◌+◌, ◌^◌, ◌<◌, eqb, length, set, MatchOption};
ghost use Rattle.spec.specs.Names.{child_column, delimited_wire, most_types};
ghost use Rattle.spec.specs.Schema.{good_entry, bad_schema, schema_of};
ghost use Rattle.schema.specs.Layout.{key_count};
ghost use Rattle.schema.specs.Search.{within, seek, find_in};
ghost use Rattle.schema.specs.Tables.{counted, next_key, inner_in, noted, sound_of, keys_with, info_with, keys_of, info_of, key_at, entry_for, unknown, typed, table_says};
ghost use Rattle.schema.specs.Told.{entry, five_at, bad_place, as_fault, as_stopped, place, said};

pub mod layout;

use crate::layout::{
    GUESSED_TAGS, GUESSES, INFO, INNERS_AT, KEYS, KINDS_AT, MAY_PACK, MOST_NUMBERS, NO_KEY,
    OWNER_UNIT,
};
use spec::answers::{Fault, Stopped};
use spec::columns::{ENTRY_NUMBER, ENTRY_STRIDE};
use spec::limits::{LARGEST_NUMBER, MOST_TYPES};
use spec::refusals::Refusal;
use spec::{kinds, kinds32, wire_types};
use std::error::Error;
use std::fmt;
use wire::wire_format;

// Kinds as numbers of an entry: those that are tested, and the last of descriptor.proto.
const ENTRY_GROUP: u32 = kinds32::GROUP;

const ENTRY_MESSAGE: u32 = kinds32::MESSAGE;

const LAST_KIND: u32 = kinds32::SINT64;

// Kinds as bytes of the tables.
const MESSAGE: u8 = kinds::MESSAGE as u8;

const PACKED_HEAD: u8 = kinds::PACKED_HEAD as u8;

// A wire type as the rest of a tag.
const DELIMITED: u32 = wire_types::DELIMITED as u32;

// The field numbers below this one have guesses.
const GUESSED_NUMBERS: u32 = GUESSES as u32;

// What the tables say of a field that may be packed, before it is a byte.
const PACKED_MARK: u32 = MAY_PACK as u32;

// The numbers of an entry.
#[derive(Clone, Copy)]
struct Five {
    owner: u32,
    number: u32,
    kind: u32,
    repeated: u32,
    child: u32,
}

// A schema that is not valid: the index of its first bad entry, 0 where the type count or the entry count is wrong.
#[derive(Clone, Copy, Debug, PartialEq, Eq)]
pub struct BadEntry {
    pub index: usize,
}

impl fmt::Display for BadEntry {
    fn fmt<W: fmt::Write>(&self, f: &mut fmt::Formatter<W>) -> fmt::Result {
        write!(f, "bad schema: entry {}", self.index)
    }
}

impl Error for BadEntry {}

impl From<BadEntry> for Fault {
    ghost from_gives = { λ bad fault. fault ≡ as_fault bad };

    fn from(bad: BadEntry) -> Fault {
        Fault {
            refusal: Refusal::InvalidSchema,
            index: bad.index,
        }
    }
}

// A reading that a bad schema stops puts nothing into the room.
impl From<BadEntry> for Stopped {
    ghost from_gives = { λ bad stopped. stopped ≡ as_stopped bad };

    fn from(bad: BadEntry) -> Stopped {
        Stopped {
            refusal: Refusal::InvalidSchema,
            count: 0,
            place: bad.index,
        }
    }
}

// What a schema says of a tag: the kind of its field, and the type of a message's fields or the kind of a packed field's elements (else 0).
#[derive(Clone, Copy, Debug, PartialEq, Eq)]
pub struct Said {
    pub kind: u8,
    pub inner: u8,
}

// ---- valid or not

fn counts_ok(types: u32, count: usize) -> bool
    ensures { result ≡ counted types count }
{
    1 <= types && types <= MOST_TYPES && count <= MOST_NUMBERS && count % ENTRY_STRIDE == 0
}

impl Five {
    fn of(numbers: &[u32; ENTRY_STRIDE]) -> Five
        ensures { result ≡ five_at numbers.now 0 }
    {
        let [owner, number, kind, repeated, child] = *numbers;
        Five {
            owner,
            number,
            kind,
            repeated,
            child,
        }
    }
}

// Whether the numbers are a good entry, apart from the order of entries. Each `if` ends the test at once: of one expression with `&&` all tests are made, which
// takes 6 instructions more an entry.
#[tactic(auto, unfolding(spec::specs::Schema::good_entry, spec::specs::Schema::entry_of))]
fn entry_ok(types: u32, f: Five) -> bool
    ensures { result ≡ good_entry types (entry f) }
{
    if types <= f.owner {
        return false;
    }
    if f.number == 0 || LARGEST_NUMBER < f.number {
        return false;
    }
    if f.kind == 0 || f.kind == ENTRY_GROUP || LAST_KIND < f.kind {
        return false;
    }
    if 1 < f.repeated {
        return false;
    }
    // most entries have none, and every kind may
    if f.child == 0 {
        return true;
    }
    f.kind == ENTRY_MESSAGE && f.child < types
}

// The key of an entry without its wire type, where it is good and stands after the one whose key is `last`.
fn next_key(types: u32, last: u64, f: Five) -> Option<u64>
    ensures { MatchOption result (next_key types last (entry f) ≡ 0) (λ k. (k ≡ next_key types last (entry f)) × (0 < k)) }
{
    if !entry_ok(types, f) {
        return None;
    }
    let key = u64::from(f.owner) * OWNER_UNIT + u64::from(f.number) * 8;
    if key <= last {
        return None;
    }
    Some(key)
}

// Whether a schema is valid.
pub fn check(types: u32, numbers: &[u32]) -> Result<(), BadEntry>
    ensures { bad_place result ≡ bad_schema (schema_of types numbers.now) }
{
    if !counts_ok(types, numbers.len()) {
        return Err(BadEntry { index: 0 });
    }
    let (entries, _) = numbers.as_chunks::<ENTRY_STRIDE>();
    let mut last: u64 = 0;
    for (e, entry) in entries.iter().enumerate() {
        let Some(key) = next_key(types, last, Five::of(entry)) else {
            return Err(BadEntry { index: e });
        };
        last = key;
    }
    Ok(())
}

// ---- an entry by its key

// The place below `count` where `at` answers `key`, by halves: at most nine are asked for where there are 256. The library's `binary_search_by` does not
// serve: `find` and `says` promise which place is found in numbers of any order, and its contract says nothing where they do not rise.
fn search<F: Fn(usize) -> u64>(count: usize, key: u64, at: F) -> Option<usize>
    requires { (count < 2 ^ 63) × ((i : ℕ) → i < count → F.pre at i) }
    ensures { (row : ℕ → ℕ) → ((i x : ℕ) → i < count → F.post at i x → x ≡ row i) → place result ≡ within count (seek count row count key 0 count) }
{
    let mut lo: usize = 0;
    let mut hi: usize = count;
    while lo < hi {
        let mid = (lo + hi) / 2;
        let here = at(mid);
        if here == key {
            return Some(mid);
        }
        if here < key {
            lo = mid + 1;
        } else {
            hi = mid;
        }
    }
    None
}

// An entry by owner and number.
#[tactic(auto, unfolding(crate::specs::Search::find_in))]
pub fn find(numbers: &[u32], owner: u32, number: u32) -> Option<usize>
    ensures { place result ≡ find_in numbers.now owner number }
{
    let key = u64::from(owner) * OWNER_UNIT + u64::from(number);
    search(numbers.len() / ENTRY_STRIDE, key, |i| {
        u64::from(numbers[i * ENTRY_STRIDE]) * OWNER_UNIT
            + u64::from(numbers[i * ENTRY_STRIDE + ENTRY_NUMBER])
    })
}

// ---- the tables: two arrays and no struct, since C lends them as two

// What is noted beside the kind: MAY_PACK where the field may be packed, and else the child type, which only kinds of wire type 2 have.
fn inner_of(w: u8, repeated: u32, child: u32) -> u8
    requires { (repeated < 2) × (child < 256) × ((w ≡ delimited_wire → ⊥) → child ≡ 0) }
    ensures { result ≡ inner_in w (eqb repeated 1) child }
{
    if w == wire_types::DELIMITED {
        child as u8
    } else {
        (repeated * PACKED_MARK) as u8
    }
}

// Entry e is noted, whose rank is `key` and whose wire type is w.
fn note(e: usize, f: Five, key: u64, w: u8, keys: &mut [u64; KEYS], info: &mut [u8; INFO])
    requires { (e < key_count) × (f.owner < most_types) × (f.kind < 256) × (f.repeated < 2) × (f.child < 256) × ((w ≡ delimited_wire → ⊥) → f.child ≡ 0) × (key < 2 ^ 63) }
    ensures { (keys.new ≡ set keys.old e (key + w))
        × (info.new ≡ noted e f.owner f.number f.kind (inner_in w (eqb f.repeated 1) f.child) info.old) }
{
    keys[e] = key + u64::from(w);
    info[KINDS_AT + e] = f.kind as u8;
    info[INNERS_AT + e] = inner_of(w, f.repeated, f.child);
    if f.number < GUESSED_NUMBERS {
        info[f.owner as usize * GUESSES + f.number as usize] = e as u8;
    }
}

// Adds the entries of a schema to arrays that the caller has just cleared; those before the first bad one where it is not valid. It leaves all else in
// the arrays as it is, and is here for the calls of the library that make their arrays. `tables` is the call for users.
// The loop is that of `check` with a note of each entry. One loop that is passed a closure is no plainer: its contract would tell each step of the
// closure, as a caller's proof knows nothing else of what a passed closure writes.
pub fn note_entries(
    types: u32,
    numbers: &[u32],
    keys: &mut [u64; KEYS],
    info: &mut [u8; INFO],
) -> Result<(), BadEntry>
    ensures { (bad_place result ≡ bad_schema (schema_of types numbers.now))
        × (keys.new ≡ keys_with 0 (sound_of (schema_of types numbers.now)) keys.old)
        × (info.new ≡ info_with 0 (sound_of (schema_of types numbers.now)) info.old) }
{
    if !counts_ok(types, numbers.len()) {
        return Err(BadEntry { index: 0 });
    }
    let wires = wire_format::kind_wires();
    let (entries, _) = numbers.as_chunks::<ENTRY_STRIDE>();
    let mut last: u64 = 0;
    for (e, entry) in entries.iter().enumerate() {
        let f = Five::of(entry);
        let Some(key) = next_key(types, last, f) else {
            return Err(BadEntry { index: e });
        };
        note(e, f, key, wires[f.kind as usize], keys, info);
        last = key;
    }
    Ok(())
}

// The tables of a schema, whatever the arrays held before; of the entries before the first bad one where it is not valid.
pub fn tables(
    types: u32,
    numbers: &[u32],
    keys: &mut [u64; KEYS],
    info: &mut [u8; INFO],
) -> Result<(), BadEntry>
    ensures { (bad_place result ≡ bad_schema (schema_of types numbers.now))
        × (keys.new ≡ keys_of (schema_of types numbers.now))
        × (info.new ≡ info_of (schema_of types numbers.now)) }
{
    *keys = [NO_KEY; KEYS];
    *info = [0; INFO];
    note_entries(types, numbers, keys, info)
}

// ---- asking them

// The kinds of fields that no schema says, by wire type.
const UNKNOWN_KINDS: [u8; 8] = [
    kinds::UNKNOWN_VARINT as u8,
    kinds::UNKNOWN_FIXED64 as u8,
    kinds::UNKNOWN_BYTES as u8,
    kinds::GROUP_START as u8,
    kinds::GROUP_END as u8,
    kinds::UNKNOWN_FIXED32 as u8,
    0,
    0,
];

fn unknown(tag: u32) -> Said
    ensures { said result ≡ unknown tag }
{
    Said {
        kind: UNKNOWN_KINDS[tag as usize % 8],
        inner: 0,
    }
}

// What entry i says of a tag that has its number.
#[tactic(auto, unfolding(crate::specs::Tables::typed))]
fn typed(keys: &[u64; KEYS], info: &[u8; INFO], i: usize, key: u64, tag: u32) -> Said
    requires { i < key_count }
    ensures { said result ≡ typed keys.now info.now i key tag }
{
    let kind = info[KINDS_AT + i];
    let inner = info[INNERS_AT + i];
    if keys[i] == key {
        let inner = if kind == MESSAGE { inner } else { 0 };
        Said { kind, inner }
    } else if tag % 8 == DELIMITED && inner == MAY_PACK {
        Said {
            kind: PACKED_HEAD,
            inner: kind,
        }
    } else {
        unknown(tag)
    }
}

// The entry of a tag in a message of this type, where there is one: the guess where it is right, and else by search. A guess is right by type and
// number alone: a packed field has another wire type than its entry, and no search is needed for it.
#[tactic(auto, unfolding(crate::specs::Tables::entry_for))]
fn entry_for(keys: &[u64; KEYS], info: &[u8; INFO], ty: u32, tag: u32) -> Option<usize>
    ensures { place result ≡ within key_count (entry_for keys.now info.now ty tag) }
{
    let key = (u64::from(ty) * OWNER_UNIT + u64::from(tag)) / 8;
    if tag < GUESSED_TAGS && ty < MOST_TYPES {
        let guess = usize::from(info[ty as usize * GUESSES + tag as usize / 8]);
        if keys[guess] / 8 == key {
            return Some(guess);
        }
    }
    search(KEYS, key, |i| keys[i] / 8)
}

// What the tables say of a tag in a message of this type.
#[tactic(auto, unfolding(crate::specs::Tables::table_says))]
pub fn says(keys: &[u64; KEYS], info: &[u8; INFO], ty: u32, tag: u32) -> Said
    ensures { said result ≡ table_says keys.now info.now ty tag }
{
    let Some(i) = entry_for(keys, info, ty, tag) else {
        return unknown(tag);
    };
    let key = u64::from(ty) * OWNER_UNIT + u64::from(tag);
    typed(keys, info, i, key, tag)
}
