// What the field after a tag adds, by its type.
ghost use Rattle.std.specs.Prelude.{◌≡◌, ◌^◌, ◌<◌};
ghost use Rattle.spec.specs.Pull.{step_at};
ghost use Rattle.pull.specs.Told.{as_moved};
ghost use Rattle.bench_pull.specs.Fields.{root_ask, inner_ask, amount_of, Ordered};

use crate::tags;
use pull::step::{
    Moved, Said, bool_at, bytes_at, fixed32_at, int32_at, skip_at, string_at, uint32_at,
};
use wire::found::Found;

// A number as it is, and of a content its length; none where it was refused.
fn amount(m: Moved) -> Option<Found>
    requires { Ordered m }
    ensures { result ≡ amount_of (as_moved m) }
{
    let next = m.at;
    let said = m.said.ok()?;
    match said {
        Said::Number(value) => Some(Found { value, next }),
        Said::Content { start, end } => {
            let size = end - start;
            Some(Found {
                value: size as u64,
                next,
            })
        }
        Said::End => None,
    }
}

pub(crate) fn root_value(s: &[u8], at: usize, tag: u64) -> Option<Found>
    requires { tag < 2 ^ 32 }
    ensures { result ≡ amount_of (step_at s.now at 0 (root_ask tag)) }
{
    match tag {
        tags::ROOT_INT32 => amount(int32_at(s, at)),
        tags::ROOT_STRING => amount(string_at(s, at)),
        tags::ROOT_FLOAT => amount(fixed32_at(s, at)),
        tags::ROOT_BOOL => amount(bool_at(s, at)),
        _ => amount(skip_at(s, at, 0, tag as u32)),
    }
}

pub(crate) fn inner_value(s: &[u8], at: usize, level: u32, tag: u64) -> Option<Found>
    requires { tag < 2 ^ 32 }
    ensures { result ≡ amount_of (step_at s.now at level (inner_ask tag)) }
{
    match tag {
        tags::INNER_UINT32 => amount(uint32_at(s, at)),
        tags::INNER_BYTES => amount(bytes_at(s, at)),
        _ => amount(skip_at(s, at, level, tag as u32)),
    }
}
