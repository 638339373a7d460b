// The limits of the user's rules. specs/Names and specs/Base have them for the definitions.

// The most bytes that are read or written.
pub const LIMIT: u64 = 0x7fff_ffff;

// The same as the length of a slice.
pub const MOST_BYTES: usize = LIMIT as usize;

// The largest field number.
pub const LARGEST_NUMBER: u32 = 0x1fff_ffff;

// The most message types of a schema, and the most entries.
pub const MOST_TYPES: u32 = 32;

pub const MOST_ENTRIES: usize = 256;

// How many messages, and how many groups, may be open around a field.
pub const MOST_LEVELS: u32 = 100;

// Patterns of 64 bits: the least number beyond the positive int32, the least int32, and the least number beyond uint32.
pub const BEYOND_INT32: u64 = 0x8000_0000;

pub const LEAST_INT32: u64 = 0xffff_ffff_8000_0000;

pub const BEYOND_UINT32: u64 = 0x1_0000_0000;
