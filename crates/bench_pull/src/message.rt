// The fields of a message, one after the other: a tag, then the value by its type. A content is entered in place, as a part of the same slice.
ghost use Rattle.std.specs.Prelude.{◌≡◌, ◌+◌, ◌-◌, ◌≤◌, length};
ghost use Rattle.bench_pull.specs.Fields as spec;
ghost use Rattle.spec.specs.Names.{most_levels};

use crate::tags;
use crate::value::{inner_value, root_value};
use pull::step::{Said, enter_at, sint32_at, tag_at};

// The exclusive or of what stands before a refusal.
#[derive(Clone, Copy, Debug, PartialEq, Eq)]
pub struct Part {
    pub sum: u64,
}

// The elements of a packed field.
fn elements(s: &[u8], from: u64) -> Result<u64, Part>
    ensures { result ≡ spec.elements (length s.now) from 0 s.now }
{
    let mut at: usize = 0;
    let mut acc: u64 = from;
    while at < s.len() {
        let element = sint32_at(s, at);
        let Ok(said) = element.said else {
            return Err(Part { sum: acc });
        };
        let Said::Number(v) = said else {
            return Err(Part { sum: acc });
        };
        acc ^= v;
        at = element.at;
    }
    Ok(acc)
}

// The fields of an inner message, whose level is counted: no content is entered at level `most_levels`.
fn inner(s: &[u8], level: u32, from: u64) -> Result<u64, Part>
    requires { level ≤ most_levels }
    ensures { result ≡ spec.inner (most_levels + 1 - level) from s.now }
{
    let mut at: usize = 0;
    let mut acc: u64 = from;
    while at < s.len() {
        let first = tag_at(s, at);
        let Ok(read) = first.said else {
            return Err(Part { sum: acc });
        };
        let Said::Number(tag) = read else {
            return Err(Part { sum: acc });
        };
        if tag == tags::INNER_MESSAGE {
            let entered = enter_at(s, first.at, level);
            let Ok(held) = entered.said else {
                return Err(Part { sum: acc });
            };
            let Said::Content { start, end } = held else {
                return Err(Part { sum: acc });
            };
            let size = end - start;
            acc = inner(&s[start..end], level + 1, acc ^ size as u64)?;
            at = entered.at;
        } else {
            let Some(found) = inner_value(s, first.at, level, tag) else {
                return Err(Part { sum: acc });
            };
            acc ^= found.value;
            at = found.next;
        }
    }
    Ok(acc)
}

// A content of the root.
fn content(s: &[u8], tag: u64, from: u64) -> Result<u64, Part>
    ensures { result ≡ spec.root_content tag from s.now }
{
    if tag == tags::ROOT_MESSAGE {
        return inner(s, 1, from);
    }
    elements(s, from)
}

// Whether a tag of the root has a content that is entered.
fn holds(tag: u64) -> bool
    ensures { result ≡ spec.root_holds tag }
{
    if tag == tags::ROOT_MESSAGE {
        return true;
    }
    tag == tags::ROOT_PACKED
}

// The fields of the root.
pub(crate) fn root(s: &[u8]) -> Result<u64, Part>
    ensures { result ≡ spec.root s.now }
{
    let mut at: usize = 0;
    let mut acc: u64 = 0;
    while at < s.len() {
        let first = tag_at(s, at);
        let Ok(read) = first.said else {
            return Err(Part { sum: acc });
        };
        let Said::Number(tag) = read else {
            return Err(Part { sum: acc });
        };
        if holds(tag) {
            let entered = enter_at(s, first.at, 0);
            let Ok(held) = entered.said else {
                return Err(Part { sum: acc });
            };
            let Said::Content { start, end } = held else {
                return Err(Part { sum: acc });
            };
            let size = end - start;
            acc = content(&s[start..end], tag, acc ^ size as u64)?;
            at = entered.at;
        } else {
            let Some(found) = root_value(s, first.at, tag) else {
                return Err(Part { sum: acc });
            };
            acc ^= found.value;
            at = found.next;
        }
    }
    Ok(acc)
}
