// The document check: whether bytes are a run of fields in which every group is closed under its own number.
ghost use Rattle.std.specs.Prelude.{◌≡◌, [], ◌∷◌, ◌<◌, length, drop};
ghost use Rattle.spec.specs.Varint.{varint32};
ghost use Rattle.spec.specs.Document.{is_run, is_document};
ghost use Rattle.wire.specs.Answers.{as_read};

use crate::field::{past_plain, quick_value};
use crate::wire_types64;
use arrayvec::ArrayVec;
use spec::limits;
use spec::refusals::Refusal;
use wire::found::Found;
use wire::varint::decode::decode_varint32;

// The most groups that are open.
const MOST_LEVELS: usize = limits::MOST_LEVELS as usize;

// A tag as it stands: neither its number nor its wire type is judged. Most have one byte: those are read in place. The others are read by a function of their
// own, as the slice is then stored for the call where one is made, and not for every tag.
fn raw_tag_at(s: &[u8], at: usize) -> Result<Found, Refusal>
    requires { at < length s.now }
    ensures { as_read at result ≡ varint32 (drop at s.now) }
{
    let b = u64::from(s[at]);
    if 128 <= b {
        return long_raw_tag(s, at);
    }
    Ok(Found {
        value: b,
        next: at + 1,
    })
}

fn long_raw_tag(s: &[u8], at: usize) -> Result<Found, Refusal>
    ensures { as_read at result ≡ varint32 (drop at s.now) }
{
    decode_varint32(s, at)
}

// The two loops judge a tag's number; its wire type is judged with the value, as the types 6 and 7 have none.

// Whether the bytes from a position on are the rest of a run, where one group is open, of the number `first`. The numbers of the groups that are open are kept
// in the order in which they were opened.
fn is_rest(s: &[u8], from: usize, first: u32) -> bool
    ensures { result ≡ is_run (length (drop from s.now)) (first ∷ []) (drop from s.now) }
{
    let mut numbers: ArrayVec<u32, MOST_LEVELS> = ArrayVec::new();
    numbers.push(first);
    let mut at = from;
    while at < s.len() {
        let Ok(Found { value, next }) = raw_tag_at(s, at) else {
            return false;
        };
        if value < 8 {
            return false;
        }
        let w = value % 8;
        if let Some(end) = quick_value(s, next, w) {
            at = end;
        } else {
            let number = (value / 8) as u32;
            match w {
                wire_types64::START_GROUP => {
                    if numbers.is_full() {
                        return false;
                    }
                    numbers.push(number);
                    at = next;
                }
                wire_types64::END_GROUP => {
                    let Some(opened) = numbers.pop() else {
                        return false;
                    };
                    if opened != number {
                        return false;
                    }
                    at = next;
                }
                _ => {
                    let Ok(end) = past_plain(s, next, w) else {
                        return false;
                    };
                    at = end;
                }
            }
        }
    }
    numbers.is_empty()
}

// Whether the bytes are a run of fields. No number is kept before the first group, so a document without groups does not pay for clearing their array.
fn is_run(s: &[u8]) -> bool
    ensures { result ≡ is_run (length s.now) [] s.now }
{
    let mut at: usize = 0;
    while at < s.len() {
        let Ok(Found { value, next }) = raw_tag_at(s, at) else {
            return false;
        };
        if value < 8 {
            return false;
        }
        let w = value % 8;
        if let Some(end) = quick_value(s, next, w) {
            at = end;
        } else {
            if w == wire_types64::START_GROUP {
                let number = (value / 8) as u32;
                return is_rest(s, next, number);
            }
            let Ok(end) = past_plain(s, next, w) else {
                return false;
            };
            at = end;
        }
    }
    true
}

// Whether the bytes are a document. Input above the size limit is none.
pub fn is_document(s: &[u8]) -> bool
    ensures { result ≡ is_document s.now }
{
    if limits::MOST_BYTES < s.len() {
        return false;
    }
    is_run(s)
}
