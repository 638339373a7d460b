// The loops of the crate `bench_leaves` under the names that C calls, so that bench/ can count them.
#![tactic(auto)]

ghost use Rattle.std.specs.Prelude.{◌≡◌};
ghost use Rattle.bench_leaves.specs.Loops.{varints, puts, pulled};

// The exclusive or of all varints, up to the first that is refused.
#[unsafe(no_mangle)]
pub extern "C" fn perf_varints(s: &[u8]) -> u64
    ensures { result ≡ varints s.now }
{
    bench_leaves::perf_varints(s)
}

// All values as varints, one after the other, and how many bytes they take: 0 where one has no room, with those before it stored.
#[unsafe(no_mangle)]
pub extern "C" fn perf_put_varints(values: &[u64], out: &mut [u8]) -> usize
    ensures { (result ≡ (puts 0 values.now out.old).0) × (out.new ≡ (puts 0 values.now out.old).1) }
{
    bench_leaves::perf_put_varints(values, out)
}

// The exclusive or of all values of a message whose fields are varints, up to the end or the first refusal: a raw tag and a uint64 an iteration.
#[unsafe(no_mangle)]
pub extern "C" fn perf_pull(s: &[u8]) -> u64
    ensures { result ≡ pulled s.now }
{
    bench_leaves::perf_pull(s)
}
