// The verbs on numbers and on bytes alone: varints, zigzag, tags, the size limit, the table of kinds, UTF-8, skipping, the document check.
use crate::answers::put_refused;
use crate::fail::Fail;
use crate::room::Room;
use crate::sizings::signed32;
use crate::words::Words;
use printing::Page;
use skip::unknown_or_group::{read_unknown_or_skip_group, skip_field_for_tag};
use spec::refusals::Refusal;
use std::fmt;
use std::fmt::Write;
use wire::found::Found;
use wire::varint::LONGEST;
use wire::varint::decode::{decode_varint32, decode_varint64};
use wire::varint::encode::put_varint64;
use wire::wire_format::{Tag, WireType, check_message_size};
use wire::zigzag::{decode_zig_zag_32, decode_zig_zag_64, encode_zig_zag_32, encode_zig_zag_64};

// `vsize V`: how many bytes a varint takes.
pub fn vsize(words: &mut Words, page: &mut Page) -> Result<(), Fail> {
    let value = words.last_number()?;
    write!(page, "{}", sizes::compute_raw_varint64_size(value))?;
    Ok(())
}

// `tagsize NUMBER`: how many bytes a tag takes.
pub fn tagsize(words: &mut Words, page: &mut Page) -> Result<(), Fail> {
    let number = words.last_number()?;
    write!(page, "{}", sizes::tag_size(number))?;
    Ok(())
}

// `zdec32 N`: the pattern of the number that N stands for.
pub fn zdec32(words: &mut Words, page: &mut Page) -> Result<(), Fail> {
    let value = i64::from(decode_zig_zag_32(words.last_number()?));
    write!(page, "{}", value.cast_unsigned())?;
    Ok(())
}

// `zdec64 N`: the pattern of the number that N stands for.
pub fn zdec64(words: &mut Words, page: &mut Page) -> Result<(), Fail> {
    let value = decode_zig_zag_64(words.last_number()?);
    write!(page, "{}", value.cast_unsigned())?;
    Ok(())
}

// `zenc32 PATTERN`: what stands for the number of this pattern.
pub fn zenc32(words: &mut Words, page: &mut Page) -> Result<(), Fail> {
    let value = signed32(words.last_number()?)?;
    write!(page, "{}", encode_zig_zag_32(value))?;
    Ok(())
}

// `zenc64 PATTERN`: what stands for the number of this pattern.
pub fn zenc64(words: &mut Words, page: &mut Page) -> Result<(), Fail> {
    let pattern: u64 = words.last_number()?;
    write!(page, "{}", encode_zig_zag_64(pattern.cast_signed()))?;
    Ok(())
}

// `msgsize N`: `ok` or `refused 11`.
pub fn msgsize(words: &mut Words, page: &mut Page) -> Result<(), Fail> {
    match check_message_size(words.last_number()?) {
        Ok(_) => page.put_text(b"ok"),
        Err(refusal) => put_refused(refusal, page)?,
    }
    Ok(())
}

// `tag V`: `ok NUMBER WIRE` or `refused 3`.
pub fn tag(words: &mut Words, page: &mut Page) -> Result<(), Fail> {
    match Tag::new(words.last_number()?) {
        Ok(tag) => write!(page, "ok {} {}", tag.field_number, tag.wire_type.number())?,
        Err(refusal) => put_refused(refusal, page)?,
    }
    Ok(())
}

// `maketag NUMBER WIRE`: `ok TAG` or `refused 3`.
pub fn maketag(words: &mut Words, page: &mut Page) -> Result<(), Fail> {
    let number = words.number()?;
    let wire_type = words.last_number()?;
    match Tag::make(number, wire_type) {
        Ok(tag) => write!(page, "ok {}", tag.value())?,
        Err(refusal) => put_refused(refusal, page)?,
    }
    Ok(())
}

// `wire KIND`: the wire type of a kind of descriptor.proto, or `none`.
pub fn wire(words: &mut Words, page: &mut Page) -> Result<(), Fail> {
    match WireType::for_type(words.last_number()?) {
        Some(wire_type) => write!(page, "{}", wire_type.number())?,
        None => page.put_text(b"none"),
    }
    Ok(())
}

// `ok VALUE USED` or `refused N`, of a value that was looked for at 0.
fn put_found(found: Result<Found, Refusal>, page: &mut Page) -> fmt::Result {
    match found {
        Ok(Found { value, next }) => write!(page, "ok {value} {next}"),
        Err(refusal) => put_refused(refusal, page),
    }
}

// `varint64 HEX`.
pub fn varint64(words: &mut Words, room: &mut Room, page: &mut Page) -> Result<(), Fail> {
    let s = words.last_bytes(&mut room.bytes)?;
    put_found(decode_varint64(s, 0), page)?;
    Ok(())
}

// `varint32 HEX`.
pub fn varint32(words: &mut Words, room: &mut Room, page: &mut Page) -> Result<(), Fail> {
    let s = words.last_bytes(&mut room.bytes)?;
    put_found(decode_varint32(s, 0), page)?;
    Ok(())
}

// `utf8 HEX`: `ok` or `refused 6`.
pub fn utf8(words: &mut Words, room: &mut Room, page: &mut Page) -> Result<(), Fail> {
    let s = words.last_bytes(&mut room.bytes)?;
    if utf8::is_utf8(s) {
        page.put_text(b"ok");
    } else {
        put_refused(Refusal::NotUtf8, page)?;
    }
    Ok(())
}

// `utf8prefix HEX`.
pub fn utf8prefix(words: &mut Words, room: &mut Room, page: &mut Page) -> Result<(), Fail> {
    let s = words.last_bytes(&mut room.bytes)?;
    write!(page, "{}", utf8::utf8_prefix(s))?;
    Ok(())
}

// `document HEX`: `yes` or `no`.
pub fn document(words: &mut Words, room: &mut Room, page: &mut Page) -> Result<(), Fail> {
    let s = words.last_bytes(&mut room.bytes)?;
    let said = if skip::document::is_document(s) {
        "yes"
    } else {
        "no"
    };
    write!(page, "{said}")?;
    Ok(())
}

// `N USED`: of a refusal the number and 0, and else 0 and how many bytes were used.
fn put_skipped(skipped: Result<usize, Refusal>, page: &mut Page) -> fmt::Result {
    match skipped {
        Ok(used) => write!(page, "0 {used}"),
        Err(refusal) => write!(page, "{} 0", refusal.number()),
    }
}

// `skip LEVEL TAG HEX`.
pub fn skip(words: &mut Words, room: &mut Room, page: &mut Page) -> Result<(), Fail> {
    let level = words.number()?;
    let tag = words.number()?;
    let s = words.last_bytes(&mut room.bytes)?;
    put_skipped(skip_field_for_tag(tag, s, level), page)?;
    Ok(())
}

// `group LEVEL TAG HEX`.
pub fn group(words: &mut Words, room: &mut Room, page: &mut Page) -> Result<(), Fail> {
    let level = words.number()?;
    let tag = words.number()?;
    let s = words.last_bytes(&mut room.bytes)?;
    put_skipped(read_unknown_or_skip_group(tag, s, level), page)?;
    Ok(())
}

// `encode V`: the shortest varint.
pub fn encode(words: &mut Words, page: &mut Page) -> Result<(), Fail> {
    let mut bytes = [0u8; LONGEST];
    let end = put_varint64(words.last_number()?, &mut bytes, 0).ok_or(Fail::BadLine)?;
    let varint = bytes.get(..end).ok_or(Fail::BadLine)?;
    page.put_hex(varint);
    Ok(())
}
