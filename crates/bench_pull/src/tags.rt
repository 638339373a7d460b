// The tags of the fields of bench/bench.proto: the field's number, eight times, and its wire type. specs/Fields has them for the definitions.
use spec::wire_types;

// Of the root: 1 an int32, 2 a string, 3 a message, 4 a packed field, 5 a float, 7 a bool.
pub const ROOT_INT32: u64 = 1 * 8 + wire_types::VARINT as u64;

pub const ROOT_STRING: u64 = 2 * 8 + wire_types::DELIMITED as u64;

pub const ROOT_MESSAGE: u64 = 3 * 8 + wire_types::DELIMITED as u64;

pub const ROOT_PACKED: u64 = 4 * 8 + wire_types::DELIMITED as u64;

pub const ROOT_FLOAT: u64 = 5 * 8 + wire_types::FIXED32 as u64;

pub const ROOT_BOOL: u64 = 7 * 8 + wire_types::VARINT as u64;

// Of an inner message: 1 a uint32, 2 bytes, 3 a message.
pub const INNER_UINT32: u64 = 1 * 8 + wire_types::VARINT as u64;

pub const INNER_BYTES: u64 = 2 * 8 + wire_types::DELIMITED as u64;

pub const INNER_MESSAGE: u64 = 3 * 8 + wire_types::DELIMITED as u64;
