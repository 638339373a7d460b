// The verbs of sizes: `fieldsize` and `packedsize`.
use crate::fail::Fail;
use crate::room::Room;
use crate::words::Words;
use printing::Page;
use spec::kinds32;

// The signed number of 32 bits that a pattern is.
pub fn signed32(pattern: u64) -> Result<i32, Fail> {
    i32::try_from(pattern.cast_signed()).map_err(|_| Fail::BadLine)
}

// Whether a pattern is a number of 32 bits, signed or not, as far as the kind has that width; bool is 0 or 1.
fn fits(kind: u32, value: u64) -> bool {
    match kind {
        kinds32::FLOAT | kinds32::FIXED32 | kinds32::UINT32 => u32::try_from(value).is_ok(),
        kinds32::INT32 | kinds32::ENUM | kinds32::SFIXED32 | kinds32::SINT32 => {
            signed32(value).is_ok()
        }
        kinds32::BOOL => value <= 1,
        _ => true,
    }
}

// Whether it is a kind that a field of its own has.
fn is_kind(kind: u32) -> bool {
    matches!(
        kind,
        kinds32::DOUBLE..=kinds32::STRING | kinds32::MESSAGE..=kinds32::SINT64
    )
}

// `fieldsize KIND NUMBER VALUE`: the size of a field with its tag, or `refused 11`. Where the crate has a function for the kind, ours of that name is run.
pub fn fieldsize(words: &mut Words, page: &mut Page) -> Result<(), Fail> {
    let kind = words.number()?;
    let number = words.number()?;
    let value: u64 = words.last_number()?;
    if !is_kind(kind) || !fits(kind, value) {
        return Err(Fail::BadLine);
    }
    let sized = match kind {
        kinds32::INT64 => Ok(sizes::int64_size(number, value.cast_signed())),
        kinds32::UINT64 => Ok(sizes::uint64_size(number, value)),
        kinds32::INT32 | kinds32::ENUM => Ok(sizes::int32_size(number, signed32(value)?)),
        kinds32::SINT32 => Ok(sizes::sint32_size(number, signed32(value)?)),
        kinds32::SINT64 => Ok(sizes::sint64_size(number, value.cast_signed())),
        _ => sizes::field_size(kind, number, value),
    };
    page.put_sized(sized);
    Ok(())
}

// Whether fields of this kind may be packed.
fn is_packable(kind: u32) -> bool {
    matches!(
        kind,
        kinds32::DOUBLE..=kinds32::BOOL | kinds32::UINT32..=kinds32::SINT64
    )
}

// `packedsize KIND NUMBER VALUES`: the size of a packed field, or `refused 11`.
pub fn packedsize(words: &mut Words, room: &mut Room, page: &mut Page) -> Result<(), Fail> {
    let kind = words.number()?;
    let number = words.number()?;
    let values = words.values(&mut room.list)?;
    words.end()?;
    if !is_packable(kind) || !values.iter().all(|value| fits(kind, *value)) {
        return Err(Fail::BadLine);
    }
    page.put_sized(sizes::packed_size(kind, number, values));
    Ok(())
}
