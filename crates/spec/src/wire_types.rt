// Wire types, as the numbers of tags and tables. specs/Names has them for the definitions; `wire::wire_format::WireType` is the enum of those that a tag may have.
pub const VARINT: u8 = 0;

pub const FIXED64: u8 = 1;

pub const DELIMITED: u8 = 2;

pub const START_GROUP: u8 = 3;

pub const END_GROUP: u8 = 4;

pub const FIXED32: u8 = 5;

// No tag has it: there is no such kind.
pub const NONE: u8 = 7;
