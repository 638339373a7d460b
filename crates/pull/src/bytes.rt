// A varint a byte at a time, for those near the end of the slice. `wire` has the same loop; this copy is the reader's own, so that its calls do not change what the compiler
// makes of loops over the calls of `wire`.
ghost use Rattle.std.specs.Prelude.{◌≡◌, ◌+◌, ◌*◌, ◌^◌, ◌<◌, ◌≤◌, length, drop};
ghost use Rattle.spec.specs.Varint.{varint};
ghost use Rattle.wire.specs.Answers.{as_read};

use spec::refusals::Refusal;
use wire::found::Found;

// At most `more` bytes after which another comes, and one of at most `last`: one byte an iteration, up to the end of the slice.
pub(crate) fn by_bytes(s: &[u8], at: usize, more: usize, last: u64) -> Result<Found, Refusal>
    requires { (128 ^ more < 2 ^ 64) × ((last + 1) * 128 ^ more ≤ 2 ^ 64) × (at < length s.now) }
    ensures { as_read at result ≡ varint more last (drop at s.now) }
{
    let size = s.len() - at;
    let mut value: u64 = 0;
    let mut scale: u64 = 1;
    for n in 0..more {
        if size <= n {
            return Err(Refusal::EndsEarly);
        }
        let b = s[at + n] as u64;
        value += b % 128 * scale;
        if b < 128 {
            return Ok(Found {
                value,
                next: at + (n + 1),
            });
        }
        scale *= 128;
    }
    if size <= more {
        return Err(Refusal::EndsEarly);
    }
    let b = s[at + more] as u64;
    if last < b {
        return Err(Refusal::BadVarint);
    }
    let high = b * scale;
    let whole = value + high;
    Ok(Found {
        value: whole,
        next: at + (more + 1),
    })
}
