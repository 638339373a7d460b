// Sizes of packed fields by kind: of no values, and of some values under tags of one, two and five bytes.
use printing::Page;
use spec::kinds32;
use spec::limits::LARGEST_NUMBER;
use spec::refusals::Refusal;
use std::fmt;
use std::fmt::Write;

// The last field number with a tag of one byte, the first with a tag of two, and the largest, whose tag has five.
const NUMBERS: [u32; 3] = [15, 16, LARGEST_NUMBER];

// The values of each type, which all kinds of that type take: those around the last value of one byte, also where they are zigzag numbers, and the longest.
const I32S: [i32; 6] = [-1, -64, 64, 127, 128, 0x7fff_ffff];

const I64S: [i64; 6] = [-1, -64, 64, 127, 128, 0x7fff_ffff_ffff_ffff];

const U32S: [u32; 5] = [127, 128, 16383, 16384, 0xffff_ffff];

const U64S: [u64; 4] = [127, 128, 0x7fff_ffff_ffff_ffff, 0xffff_ffff_ffff_ffff];

const FLOATS: [f32; 3] = [0.5, -2.0, 0.0];

// Contents of 128 bytes and of 127: the length takes two bytes, and one.
const DOUBLES: [f64; 16] = [0.5; 16];

const BOOLS: [bool; 127] = [true; 127];

// The calls by kind, for each type that several kinds take.
fn of_i32s(kind: u32, number: u32, values: &[i32]) -> Result<u64, Refusal> {
    match kind {
        kinds32::INT32 => sizes::vec_packed_int32_size(number, values),
        kinds32::ENUM => sizes::vec_packed_enum_or_unknown_size(number, values),
        kinds32::SFIXED32 => sizes::vec_packed_sfixed32_size(number, values),
        _ => sizes::vec_packed_sint32_size(number, values),
    }
}

fn of_i64s(kind: u32, number: u32, values: &[i64]) -> Result<u64, Refusal> {
    match kind {
        kinds32::INT64 => sizes::vec_packed_int64_size(number, values),
        kinds32::SFIXED64 => sizes::vec_packed_sfixed64_size(number, values),
        _ => sizes::vec_packed_sint64_size(number, values),
    }
}

fn of_u32s(kind: u32, number: u32, values: &[u32]) -> Result<u64, Refusal> {
    match kind {
        kinds32::FIXED32 => sizes::vec_packed_fixed32_size(number, values),
        _ => sizes::vec_packed_uint32_size(number, values),
    }
}

fn of_u64s(kind: u32, number: u32, values: &[u64]) -> Result<u64, Refusal> {
    match kind {
        kinds32::FIXED64 => sizes::vec_packed_fixed64_size(number, values),
        _ => sizes::vec_packed_uint64_size(number, values),
    }
}

// The call of this kind on no values.
fn of_none(kind: u32, number: u32) -> Result<u64, Refusal> {
    match kind {
        kinds32::DOUBLE => sizes::vec_packed_double_size(number, &[]),
        kinds32::FLOAT => sizes::vec_packed_float_size(number, &[]),
        kinds32::BOOL => sizes::vec_packed_bool_size(number, &[]),
        kinds32::INT64 | kinds32::SFIXED64 | kinds32::SINT64 => of_i64s(kind, number, &[]),
        kinds32::UINT64 | kinds32::FIXED64 => of_u64s(kind, number, &[]),
        kinds32::UINT32 | kinds32::FIXED32 => of_u32s(kind, number, &[]),
        _ => of_i32s(kind, number, &[]),
    }
}

// The call of this kind on the values of its type.
fn of_values(kind: u32, number: u32) -> Result<u64, Refusal> {
    match kind {
        kinds32::DOUBLE => sizes::vec_packed_double_size(number, &DOUBLES),
        kinds32::FLOAT => sizes::vec_packed_float_size(number, &FLOATS),
        kinds32::BOOL => sizes::vec_packed_bool_size(number, &BOOLS),
        kinds32::INT64 | kinds32::SFIXED64 | kinds32::SINT64 => of_i64s(kind, number, &I64S),
        kinds32::UINT64 | kinds32::FIXED64 => of_u64s(kind, number, &U64S),
        kinds32::UINT32 | kinds32::FIXED32 => of_u32s(kind, number, &U32S),
        _ => of_i32s(kind, number, &I32S),
    }
}

// A line: a kind and a field number, and the sizes of no values and of some.
fn kind_line(kind: u32, number: u32, page: &mut Page) -> fmt::Result {
    write!(page, "packedsize {kind} {number}: ")?;
    page.put_sized(of_none(kind, number));
    page.put_byte(b' ');
    page.put_sized(of_values(kind, number));
    writeln!(page)
}

// All kinds that may be packed, under each number: all but string, group, message and bytes.
pub fn packed(page: &mut Page) -> fmt::Result {
    for number in NUMBERS {
        for kind in kinds32::DOUBLE..=kinds32::BOOL {
            kind_line(kind, number, page)?;
        }
        for kind in kinds32::UINT32..=kinds32::SINT64 {
            kind_line(kind, number, page)?;
        }
    }
    Ok(())
}
