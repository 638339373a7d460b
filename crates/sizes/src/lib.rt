// Sizes, as in src/rt of rust-protobuf. A size above the limit is refused as too large, and no sum wraps.
#![tactic(auto)]

ghost use Rattle.std.specs.Prelude.{◌≡◌, List, ℕ, length};
ghost use Rattle.spec.specs.Varint.{size, tag_size};
ghost use Rattle.spec.specs.Kind.{shape};
ghost use Rattle.spec.specs.Sizes.{prefixed_size, value_size};
ghost use Rattle.spec.specs.Writing.{sized};
ghost use Rattle.sizes.specs.Answers.{Tells};
ghost use Rattle.sizes.specs.SizeParts.{capped, coded};

pub mod packed;
mod pattern;
pub mod singular;
pub mod unknown_or_group;

pub use self::packed::{
    packed_size, vec_packed_bool_size, vec_packed_double_size, vec_packed_enum_or_unknown_size,
    vec_packed_fixed32_size, vec_packed_fixed64_size, vec_packed_float_size, vec_packed_int32_size,
    vec_packed_int64_size, vec_packed_sfixed32_size, vec_packed_sfixed64_size,
    vec_packed_sint32_size, vec_packed_sint64_size, vec_packed_uint32_size, vec_packed_uint64_size,
};
pub use self::singular::{
    bytes_size, field_size, int32_size, int64_size, sint32_size, sint64_size, string_size,
    uint32_size, uint64_size,
};
pub use self::unknown_or_group::unknown_fields_size;
use spec::answers::Unwritten;
use spec::refusals::Refusal;
use spec::{kinds, wire_types};
use wire::varint::encode::encoded_varint64_len;
use wire::wire_format::{MAX_MESSAGE_SIZE, wire_of};
use wire::zigzag::zigzag;

// How many bytes the varint of a value takes.
pub fn compute_raw_varint64_size(value: u64) -> u64
    ensures { result ≡ size value }
{
    encoded_varint64_len(value) as u64
}

pub fn compute_raw_varint32_size(value: u32) -> u64
    ensures { result ≡ size value }
{
    compute_raw_varint64_size(u64::from(value))
}

// How many bytes a tag takes. Its wire type does not matter.
pub fn tag_size(number: u32) -> u64
    ensures { result ≡ tag_size number }
{
    compute_raw_varint64_size(u64::from(number) * 8)
}

// A size, cut off just above the limit, so that no sum of two can wrap.
pub fn cut(size: u64) -> u64
    ensures { result ≡ capped size }
{
    size.min(MAX_MESSAGE_SIZE + 1)
}

// The answer of a call that writes this many bytes: `size` may be cut off above the limit, and `room` is what there is for them.
pub fn by_size(room: u64, size: u64) -> Result<usize, Unwritten>
    ensures { (s : List ℕ) → capped size ≡ capped (length s) → Tells (sized room s) result }
{
    if MAX_MESSAGE_SIZE < size {
        return Err(Unwritten {
            refusal: Refusal::TooLarge,
            size: 0,
            index: 0,
        });
    }
    let n = size as usize;
    if room < size {
        return Err(Unwritten {
            refusal: Refusal::OutputShort,
            size: n,
            index: 0,
        });
    }
    Ok(n)
}

// A length and as many bytes, cut off above the limit.
fn prefixed_size(length: u64) -> u64
    ensures { result ≡ capped (prefixed_size length) }
{
    let length = cut(length);
    cut(compute_raw_varint64_size(length) + length)
}

// The number that is written for a value of this kind.
pub fn coded_of(kind: u64, value: u64) -> u64
    ensures { result ≡ coded kind value }
{
    match kind {
        kinds::SINT32 | kinds::SINT64 => zigzag(value),
        _ => value,
    }
}

// What comes after the tag of a field of this kind, cut off above the limit; `value` is the pattern of a number, or the length of a content.
fn value_size(kind: u32, value: u64) -> u64
    ensures { result ≡ capped (value_size (shape kind) value) }
{
    match wire_of(kind) {
        wire_types::VARINT => compute_raw_varint64_size(coded_of(u64::from(kind), value)),
        wire_types::FIXED64 => 8,
        wire_types::DELIMITED => prefixed_size(value),
        wire_types::FIXED32 => 4,
        _ => 0,
    }
}
