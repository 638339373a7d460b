// Loops over the varint leaves and the pull steps. The crate `bench_leaves_c` exports them for C, so that bench/ can count them.
#![tactic(auto)]

ghost use Rattle.std.specs.Prelude.{◌≡◌};
ghost use Rattle.bench_leaves.specs.Loops.{varints, puts, pulled};

use pull::step::{Said, tag_at, uint64_at};
use wire::varint::decode::decode_varint64;
use wire::varint::encode::put_varint64;

// The exclusive or of all varints, up to the first that is refused.
pub fn perf_varints(s: &[u8]) -> u64
    ensures { result ≡ varints s.now }
{
    let mut at: usize = 0;
    let mut acc: u64 = 0;
    while at < s.len() {
        let Ok(found) = decode_varint64(s, at) else {
            return acc;
        };
        acc ^= found.value;
        at = found.next;
    }
    acc
}

// All values as varints, one after the other, and how many bytes they take: 0 where one has no room, with those before it stored.
pub fn perf_put_varints(values: &[u64], out: &mut [u8]) -> usize
    ensures { (result ≡ (puts 0 values.now out.old).0) × (out.new ≡ (puts 0 values.now out.old).1) }
{
    let mut at: usize = 0;
    for value in values {
        let Some(next) = put_varint64(*value, out, at) else {
            return 0;
        };
        at = next;
    }
    at
}

// The exclusive or of all values of a message whose fields are varints, up to the end or the first refusal: a raw tag and a uint64 an iteration.
pub fn perf_pull(s: &[u8]) -> u64
    ensures { result ≡ pulled s.now }
{
    let mut at: usize = 0;
    let mut acc: u64 = 0;
    while at < s.len() {
        let tag = tag_at(s, at);
        let Ok(read) = tag.said else {
            return acc;
        };
        let Said::Number(_) = read else {
            return acc;
        };
        let value = uint64_at(s, tag.at);
        let Ok(said) = value.said else {
            return acc;
        };
        let Said::Number(v) = said else {
            return acc;
        };
        acc ^= v;
        at = value.at;
    }
    acc
}
