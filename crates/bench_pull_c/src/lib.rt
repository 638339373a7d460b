// The pull loop of the crate `bench_pull` under the name that C calls, so that bench/ can count its steps.
#![tactic(auto)]

ghost use Rattle.std.specs.Prelude.{◌≡◌};
ghost use Rattle.bench_pull.specs.Fields.{fields};

// The exclusive or of all values and of the lengths of contents, up to the end or the first refusal.
#[unsafe(no_mangle)]
pub extern "C" fn perf_fields(s: &[u8]) -> u64
    ensures { result ≡ fields s.now }
{
    bench_pull::perf_fields(s)
}
