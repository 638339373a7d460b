// Skipping a field and a group: rt/unknown_or_group.rs and coded_input_stream/mod.rs of rust-protobuf.
ghost use Rattle.std.specs.Prelude.{◌≡◌, ◌≤◌, length, drop};
ghost use Rattle.spec.specs.Base.{Took, refusal, taken};
ghost use Rattle.spec.specs.Skip.{skip_field, skip_group, inner_group, outer_group, checked, skip_field_for_tag, read_unknown_or_skip_group};
ghost use Rattle.skip.specs.Passed.{past, behind, at_end, passed_check, skipped_number, skipped_used};

use crate::field::{past_plain, quick_value, tag_at};
use crate::wire_types64;
use spec::refusals::Refusal;
use spec::{limits, wire_types};
use wire::found::Found;

// The largest wire type, at a tag's width.
const FIXED32: u32 = wire_types::FIXED32 as u32;

// Skips the fields of a group from `from` on, and the end-group tag that closes it. It is a loop, so that the stack grows with the groups only;
// other fields are skipped in it, and skip_field is called for a group within.
#[cycle(skip_field_skip_group)]
fn skip_group(s: &[u8], from: usize, level: u32, outer: bool) -> Result<usize, Refusal>
    ensures { result ≡ behind from (skip_group (length (drop from s.now)) (at_end outer) level (drop from s.now)) }
{
    let mut at = from;
    while at < s.len() {
        let Found { value, next } = tag_at(s, at)?;
        let w = value % 8;
        if let Some(end) = quick_value(s, next, w) {
            at = end;
        } else {
            match w {
                wire_types64::START_GROUP => at = skip_field(s, next, w, level)?,
                wire_types64::END_GROUP => return Ok(next),
                _ => at = past_plain(s, next, w)?,
            }
        }
    }
    if outer {
        return Err(Refusal::EndsEarly);
    }
    Ok(at)
}

// Skips the value at `at` of a field of wire type w. A group is counted: it is entered below level MOST_LEVELS.
#[cycle(skip_field_skip_group)]
fn skip_field(s: &[u8], at: usize, w: u64, level: u32) -> Result<usize, Refusal>
    requires { at ≤ length s.now }
    ensures { result ≡ behind at (skip_field inner_group level w (drop at s.now)) }
{
    if w == wire_types64::START_GROUP {
        if limits::MOST_LEVELS <= level {
            return Err(Refusal::TooDeep);
        }
        return skip_group(s, at, level + 1, false);
    }
    past_plain(s, at, w)
}

// The outermost group of an unknown field, whose fields stand at `at`: it is not counted, and the end of the bytes is refused. The answer is the place after it.
pub fn skip_unknown_group(s: &[u8], at: usize, level: u32) -> Result<usize, Refusal>
    ensures { past at result ≡ outer_group level (drop at s.now) }
{
    skip_group(s, at, level, true)
}

// Before all else: the refusal of more bytes than may be read, then that of a bad tag.
fn checked(tag: u32, s: &[u8]) -> Result<(), Refusal>
    ensures { passed_check result ≡ checked tag s.now (Took 0 0) }
{
    if limits::MOST_BYTES < s.len() {
        return Err(Refusal::TooLarge);
    }
    if FIXED32 < tag % 8 {
        return Err(Refusal::BadTag);
    }
    if tag < 8 {
        return Err(Refusal::BadTag);
    }
    Ok(())
}

// Skips the field after a tag. Every group counts, and the end of the bytes closes all open groups. The answer is how many bytes it took. It is always inlined:
// of a short field the answer then needs no memory, which costs as much as all else.
#[inline(always)]
pub fn skip_field_for_tag(tag: u32, s: &[u8], level: u32) -> Result<usize, Refusal>
    ensures { (skipped_number result ≡ refusal (skip_field_for_tag tag level s.now)) × (skipped_used result ≡ taken (skip_field_for_tag tag level s.now)) }
{
    checked(tag, s)?;
    let w = u64::from(tag % 8);
    if let Some(used) = quick_value(s, 0, w) {
        return Ok(used);
    }
    skip_field(s, 0, w, level)
}

// Skips the field after the tag of an unknown field, as the message loop does: its outermost group is not counted.
pub fn read_unknown_or_skip_group(tag: u32, s: &[u8], level: u32) -> Result<usize, Refusal>
    ensures { (skipped_number result ≡ refusal (read_unknown_or_skip_group tag level s.now)) × (skipped_used result ≡ taken (read_unknown_or_skip_group tag level s.now)) }
{
    checked(tag, s)?;
    let w = u64::from(tag % 8);
    if w == wire_types64::START_GROUP {
        return skip_group(s, 0, level, true);
    }
    past_plain(s, 0, w)
}
