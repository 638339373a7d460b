// The size of unknown fields: src/rt/unknown_or_group.rs. They are in a list of records, STRIDE numbers each: depth, number, kind, value, start, end, tag.
ghost use Rattle.std.specs.Prelude.{◌≡◌, ◌-◌, ◌^◌, ◌<◌, eqb, get_or, if◌then◌else◌, length};
ghost use Rattle.spec.specs.Names.{unknown_bytes, kind_column, value_column, start_column, stop_column};
ghost use Rattle.spec.specs.Varint.{tag_size};
ghost use Rattle.spec.specs.Record.{records_of, stride};
ghost use Rattle.spec.specs.Sizes.{unknowns_size, unknown_fields_size};
ghost use Rattle.wire.specs.FormatTold.{size_told};
ghost use Rattle.sizes.specs.SizeParts.{capped, unknown_value};

use super::{compute_raw_varint64_size, value_size};
use spec::columns::{END, KIND, NUMBER, START, STRIDE, VALUE};
use spec::kinds;
use spec::refusals::Refusal;
use wire::varint;
use wire::wire_format::MAX_MESSAGE_SIZE;

// The least number whose tag has more than 64 bits, as a tag is eight times its number: 2 ^ 61.
const ABOVE_TAGS: u64 = 0x2000_0000_0000_0000;

// The most bytes of a tag.
const LONGEST: u64 = varint::LONGEST as u64;

// How many bytes the tag of any number takes that a record may hold.
fn tag_size64(number: u64) -> u64
    ensures { result ≡ tag_size number }
{
    if number < ABOVE_TAGS {
        compute_raw_varint64_size(number * 8)
    } else {
        LONGEST
    }
}

// The value of an unknown number, the length of unknown bytes. Bytes that end before they start have no length.
fn value_of(numbers: &[u64]) -> u64
    requires { length numbers.now ≡ stride }
    ensures { result ≡ unknown_value numbers.now }
{
    if numbers[KIND] == kinds::UNKNOWN_BYTES {
        numbers[END].saturating_sub(numbers[START])
    } else {
        numbers[VALUE]
    }
}

// What a record takes, which is nothing if it is of no unknown kind; anything above the limit if it takes more than that.
fn record_size(numbers: &[u64]) -> u64
    requires { length numbers.now ≡ stride }
    ensures value { capped result ≡ capped (unknowns_size (records_of numbers.now)) }
    ensures upper_bound { result < 2 ^ 32 }
{
    let kind = numbers[KIND];
    if kind < kinds::UNKNOWN_VARINT || kinds::UNKNOWN_FIXED32 < kind {
        return 0;
    }
    tag_size64(numbers[NUMBER]) + value_size(kind as u32, value_of(numbers))
}

// The sum of the records' sizes. A remainder of fewer numbers than a record has counts nothing.
pub fn unknown_fields_size(records: &[u64]) -> Result<u64, Refusal>
    ensures { size_told result ≡ unknown_fields_size (records_of records.now) }
{
    let mut sum: u64 = 0;
    for record in records.chunks_exact(STRIDE) {
        sum += record_size(record);
        if MAX_MESSAGE_SIZE < sum {
            return Err(Refusal::TooLarge);
        }
    }
    Ok(sum)
}
