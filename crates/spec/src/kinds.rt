// The kinds of a record, as numbers of a list. specs/Names has them for the definitions. They are no enum: a kind is a number of a list, an entry or a table that C
// lends, where any number may stand, and public calls take any for a kind.

// Those of descriptor.proto. No schema has a group.
pub const DOUBLE: u64 = 1;

pub const FLOAT: u64 = 2;

pub const INT64: u64 = 3;

pub const UINT64: u64 = 4;

pub const INT32: u64 = 5;

pub const FIXED64: u64 = 6;

pub const FIXED32: u64 = 7;

pub const BOOL: u64 = 8;

pub const STRING: u64 = 9;

pub const GROUP: u64 = 10;

pub const MESSAGE: u64 = 11;

pub const BYTES: u64 = 12;

pub const UINT32: u64 = 13;

pub const ENUM: u64 = 14;

pub const SFIXED32: u64 = 15;

pub const SFIXED64: u64 = 16;

pub const SINT32: u64 = 17;

pub const SINT64: u64 = 18;

// The head of a packed field; fields that the schema does not have, by wire type.
pub const PACKED_HEAD: u64 = 20;

pub const UNKNOWN_VARINT: u64 = 21;

pub const UNKNOWN_FIXED64: u64 = 22;

pub const UNKNOWN_BYTES: u64 = 23;

pub const UNKNOWN_FIXED32: u64 = 24;

// The start and the end of a group.
pub const GROUP_START: u64 = 25;

pub const GROUP_END: u64 = 26;

// A record of what reading drops, a skipped group or an empty packed field, where it is asked for. It has the number of a group's start: no list may have either.
pub const DROPPED_SPAN: u64 = 25;

// How many numbers there are up to the last kind of descriptor.proto, of a list's record, and of all.
pub const OWN_KINDS: usize = 19;

pub const RECORD_KINDS: usize = 25;

pub const ALL_KINDS: usize = 27;
