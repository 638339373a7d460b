// How the two tables of a schema, `keys` and `info`, are laid out. specs/Layout has the names for the definitions.
use spec::columns::ENTRY_STRIDE;
use spec::limits::{MOST_ENTRIES, MOST_TYPES};

// How many keys there are: one for each entry that a schema may have.
pub const KEYS: usize = MOST_ENTRIES;

// What an owner is multiplied by in a key.
pub const OWNER_UNIT: u64 = 0x1_0000_0000;

// The key at a place that no entry has: no tag of a message has it.
pub const NO_KEY: u64 = 0xffff_ffff_ffff_ffff;

// How many guesses a message type has in `info`: one for each field number below this.
pub const GUESSES: usize = 16;

// The tags that have guesses: those of one byte, as the numbers below 16 have.
pub const GUESSED_TAGS: u32 = GUESSES as u32 * 8;

// Where the kinds of the entries begin in `info`, after the guesses of all types.
pub const KINDS_AT: usize = GUESSES * MOST_TYPES as usize;

// Where the child types begin, after the kinds.
pub const INNERS_AT: usize = KINDS_AT + MOST_ENTRIES;

// How many bytes `info` has.
pub const INFO: usize = INNERS_AT + MOST_ENTRIES;

// What stands for the child type of a field that may be packed: more than any type.
pub const MAY_PACK: u8 = 255;

// The most numbers that a schema's entries are.
pub const MOST_NUMBERS: usize = MOST_ENTRIES * ENTRY_STRIDE;
