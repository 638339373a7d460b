// The kinds of descriptor.proto at the width of an entry: a pattern of a `match` has to be a constant of the type that is matched.
use crate::kinds;

pub const DOUBLE: u32 = kinds::DOUBLE as u32;

pub const FLOAT: u32 = kinds::FLOAT as u32;

pub const INT64: u32 = kinds::INT64 as u32;

pub const UINT64: u32 = kinds::UINT64 as u32;

pub const INT32: u32 = kinds::INT32 as u32;

pub const FIXED64: u32 = kinds::FIXED64 as u32;

pub const FIXED32: u32 = kinds::FIXED32 as u32;

pub const BOOL: u32 = kinds::BOOL as u32;

pub const STRING: u32 = kinds::STRING as u32;

pub const GROUP: u32 = kinds::GROUP as u32;

pub const MESSAGE: u32 = kinds::MESSAGE as u32;

pub const BYTES: u32 = kinds::BYTES as u32;

pub const UINT32: u32 = kinds::UINT32 as u32;

pub const ENUM: u32 = kinds::ENUM as u32;

pub const SFIXED32: u32 = kinds::SFIXED32 as u32;

pub const SFIXED64: u32 = kinds::SFIXED64 as u32;

pub const SINT32: u32 = kinds::SINT32 as u32;

pub const SINT64: u32 = kinds::SINT64 as u32;
