// Sizes of single fields, with their tags: src/rt/singular.rs.
ghost use Rattle.std.specs.Prelude.{◌≡◌, ◌+◌, length};
ghost use Rattle.std.specs.Int.{w64};
ghost use Rattle.std.proofs.Common.{of_z};
ghost use Rattle.spec.specs.Names.{bytes_kind, int32_kind, int64_kind, sint32_kind, sint64_kind, string_kind, uint32_kind, uint64_kind};
ghost use Rattle.spec.specs.Base.{Took};
ghost use Rattle.spec.specs.Varint.{size, tag_size};
ghost use Rattle.spec.specs.Sizes.{field_size};
ghost use Rattle.wire.specs.FormatTold.{size_told};

use super::{compute_raw_varint64_size, tag_size, value_size};
use crate::pattern::Pattern;
use spec::kinds32;
use spec::refusals::Refusal;
use wire::wire_format::check_message_size;
use wire::zigzag::zigzag;

// A tag and a varint.
fn varint_size<T: Pattern>(number: u32, value: T) -> u64
    ensures { result ≡ tag_size number + size (T.pattern_of value) }
{
    tag_size(number) + compute_raw_varint64_size(value.pattern())
}

// A negative int32 takes ten bytes, as its pattern does.
pub fn int32_size(number: u32, value: i32) -> u64
    ensures { Took result 0 ≡ field_size int32_kind number (of_z w64 value) }
{
    varint_size(number, value)
}

pub fn int64_size(number: u32, value: i64) -> u64
    ensures { Took result 0 ≡ field_size int64_kind number (of_z w64 value) }
{
    varint_size(number, value)
}

pub fn uint32_size(number: u32, value: u32) -> u64
    ensures { Took result 0 ≡ field_size uint32_kind number value }
{
    varint_size(number, value)
}

pub fn uint64_size(number: u32, value: u64) -> u64
    ensures { Took result 0 ≡ field_size uint64_kind number value }
{
    varint_size(number, value)
}

pub fn sint32_size(number: u32, value: i32) -> u64
    ensures { Took result 0 ≡ field_size sint32_kind number (of_z w64 value) }
{
    varint_size(number, zigzag(value.pattern()))
}

pub fn sint64_size(number: u32, value: i64) -> u64
    ensures { Took result 0 ≡ field_size sint64_kind number (of_z w64 value) }
{
    varint_size(number, zigzag(value.pattern()))
}

// A field of any kind; `value` is the pattern of a number, or the length of a content.
pub fn field_size(kind: u32, number: u32, value: u64) -> Result<u64, Refusal>
    ensures { size_told result ≡ field_size kind number value }
{
    let head = tag_size(number);
    let body = value_size(kind, value);
    check_message_size(head + body)
}

pub fn bytes_size(number: u32, bytes: &[u8]) -> Result<u64, Refusal>
    ensures { size_told result ≡ field_size bytes_kind number (length bytes.now) }
{
    field_size(kinds32::BYTES, number, bytes.len() as u64)
}

pub fn string_size(number: u32, s: &[u8]) -> Result<u64, Refusal>
    ensures { size_told result ≡ field_size string_kind number (length s.now) }
{
    field_size(kinds32::STRING, number, s.len() as u64)
}
