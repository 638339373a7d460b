// Sizes of packed fields, with their tags and lengths: src/rt/packed.rs. A field of no values is not written.
ghost use Rattle.std.specs.Prelude.{◌≡◌, map, ◌+◌, ◌*◌, ◌^◌, ◌<◌, eqb, if◌then◌else◌};
ghost use Rattle.std.specs.Float.{binary32, binary64};
ghost use Rattle.std.specs.Float.Ieee.{to_bits};
ghost use Rattle.std.specs.Int.{w64};
ghost use mir.Val.{of_z, bool_byte};
ghost use Rattle.spec.specs.Names.{bool_kind, double_kind, enum_kind, fixed32_kind, fixed64_kind, float_kind, int32_kind, int64_kind, sfixed32_kind, sfixed64_kind, sint32_kind, sint64_kind, uint32_kind, uint64_kind};
ghost use Rattle.spec.specs.Base.{Took, limited};
ghost use Rattle.spec.specs.Varint.{tag_size};
ghost use Rattle.spec.specs.Kind.{shape};
ghost use Rattle.spec.specs.Sizes.{prefixed_size, values_size, packed_size};
ghost use Rattle.wire.specs.FormatTold.{size_told};
ghost use Rattle.sizes.specs.SizeParts.{capped};

use super::{prefixed_size, tag_size, value_size};
use crate::pattern::Pattern;
use spec::kinds32;
use spec::refusals::Refusal;
use wire::wire_format::{MAX_MESSAGE_SIZE, check_message_size};

// A tag, a length and so many bytes; nothing where there are no values.
fn packed_field(number: u32, count: usize, content: u64) -> Result<u64, Refusal>
    ensures { size_told result ≡ (if eqb count 0 then Took 0 0 else limited (tag_size number + prefixed_size content)) }
{
    if count == 0 {
        return Ok(0);
    }
    let head = tag_size(number);
    let body = prefixed_size(content);
    check_message_size(head + body)
}

// The sum of the values' sizes, cut off above the limit. The sum is left as soon as it is above the limit.
fn values_size<T: Pattern>(kind: u32, values: &[T]) -> u64
    ensures { result ≡ capped (values_size (shape kind) (map T.pattern_of values.now)) }
{
    let mut sum: u64 = 0;
    for value in values {
        sum += value_size(kind, value.pattern());
        if MAX_MESSAGE_SIZE < sum {
            return MAX_MESSAGE_SIZE + 1;
        }
    }
    sum
}

// The values of any kind, from numbers of any type.
fn packed_values<T: Pattern>(kind: u32, number: u32, values: &[T]) -> Result<u64, Refusal>
    ensures { size_told result ≡ packed_size kind number (map T.pattern_of values.now) }
{
    packed_field(number, values.len(), values_size(kind, values))
}

// Of any kind, from the values' patterns.
pub fn packed_size(kind: u32, number: u32, values: &[u64]) -> Result<u64, Refusal>
    ensures { size_told result ≡ packed_size kind number values.now }
{
    packed_values(kind, number, values)
}

pub fn vec_packed_int32_size(number: u32, values: &[i32]) -> Result<u64, Refusal>
    ensures { size_told result ≡ packed_size int32_kind number (map (of_z w64) values.now) }
{
    packed_values(kinds32::INT32, number, values)
}

pub fn vec_packed_int64_size(number: u32, values: &[i64]) -> Result<u64, Refusal>
    ensures { size_told result ≡ packed_size int64_kind number (map (of_z w64) values.now) }
{
    packed_values(kinds32::INT64, number, values)
}

pub fn vec_packed_uint32_size(number: u32, values: &[u32]) -> Result<u64, Refusal>
    ensures { size_told result ≡ packed_size uint32_kind number values.now }
{
    packed_values(kinds32::UINT32, number, values)
}

pub fn vec_packed_uint64_size(number: u32, values: &[u64]) -> Result<u64, Refusal>
    ensures { size_told result ≡ packed_size uint64_kind number values.now }
{
    packed_values(kinds32::UINT64, number, values)
}

pub fn vec_packed_sint32_size(number: u32, values: &[i32]) -> Result<u64, Refusal>
    ensures { size_told result ≡ packed_size sint32_kind number (map (of_z w64) values.now) }
{
    packed_values(kinds32::SINT32, number, values)
}

pub fn vec_packed_sint64_size(number: u32, values: &[i64]) -> Result<u64, Refusal>
    ensures { size_told result ≡ packed_size sint64_kind number (map (of_z w64) values.now) }
{
    packed_values(kinds32::SINT64, number, values)
}

// A negative enum takes ten bytes, where the crate counts five.
pub fn vec_packed_enum_or_unknown_size(number: u32, values: &[i32]) -> Result<u64, Refusal>
    ensures { size_told result ≡ packed_size enum_kind number (map (of_z w64) values.now) }
{
    packed_values(kinds32::ENUM, number, values)
}

// So many values of one width.
fn packed_fixed(number: u32, count: usize, width: u64) -> Result<u64, Refusal>
    requires { count * width < 2 ^ 64 }
    ensures { size_told result ≡ (if eqb count 0 then Took 0 0 else limited (tag_size number + prefixed_size (count * width))) }
{
    packed_field(number, count, count as u64 * width)
}

pub fn vec_packed_fixed32_size(number: u32, values: &[u32]) -> Result<u64, Refusal>
    ensures { size_told result ≡ packed_size fixed32_kind number values.now }
{
    packed_fixed(number, values.len(), 4)
}

pub fn vec_packed_fixed64_size(number: u32, values: &[u64]) -> Result<u64, Refusal>
    ensures { size_told result ≡ packed_size fixed64_kind number values.now }
{
    packed_fixed(number, values.len(), 8)
}

pub fn vec_packed_sfixed32_size(number: u32, values: &[i32]) -> Result<u64, Refusal>
    ensures { size_told result ≡ packed_size sfixed32_kind number (map (of_z w64) values.now) }
{
    packed_fixed(number, values.len(), 4)
}

pub fn vec_packed_sfixed64_size(number: u32, values: &[i64]) -> Result<u64, Refusal>
    ensures { size_told result ≡ packed_size sfixed64_kind number (map (of_z w64) values.now) }
{
    packed_fixed(number, values.len(), 8)
}

pub fn vec_packed_float_size(number: u32, values: &[f32]) -> Result<u64, Refusal>
    ensures { size_told result ≡ packed_size float_kind number (map (to_bits binary32) values.now) }
{
    packed_fixed(number, values.len(), 4)
}

pub fn vec_packed_double_size(number: u32, values: &[f64]) -> Result<u64, Refusal>
    ensures { size_told result ≡ packed_size double_kind number (map (to_bits binary64) values.now) }
{
    packed_fixed(number, values.len(), 8)
}

pub fn vec_packed_bool_size(number: u32, values: &[bool]) -> Result<u64, Refusal>
    ensures { size_told result ≡ packed_size bool_kind number (map bool_byte values.now) }
{
    packed_fixed(number, values.len(), 1)
}
