// The pull loop over a message of bench/bench.proto, each value by its type. The crate `bench_pull_c` exports it for C, so that bench/ can count the steps.
#![tactic(auto)]

pub mod message;
pub mod tags;
pub mod value;

ghost use Rattle.std.specs.Prelude.{◌≡◌};
ghost use Rattle.bench_pull.specs.Fields.{fields};

use crate::message::root;

// The exclusive or of all values and of the lengths of contents, up to the end or the first refusal.
pub fn perf_fields(s: &[u8]) -> u64
    ensures { result ≡ fields s.now }
{
    match root(s) {
        Ok(sum) => sum,
        Err(part) => part.sum,
    }
}
