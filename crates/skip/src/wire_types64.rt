// Wire types at the width of a tag's value.
use spec::wire_types;

pub(crate) const VARINT: u64 = wire_types::VARINT as u64;

pub(crate) const FIXED64: u64 = wire_types::FIXED64 as u64;

pub(crate) const DELIMITED: u64 = wire_types::DELIMITED as u64;

pub(crate) const START_GROUP: u64 = wire_types::START_GROUP as u64;

pub(crate) const END_GROUP: u64 = wire_types::END_GROUP as u64;

pub(crate) const FIXED32: u64 = wire_types::FIXED32 as u64;
