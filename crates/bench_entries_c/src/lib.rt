// The call of the crate `bench_entries` under the name that C calls, so that bench/ can count `entries::read`.
#![tactic(auto)]

ghost use Rattle.std.specs.Prelude.{◌≡◌, [], ◌∷◌, ◌/◌, length};
ghost use Rattle.spec.specs.Record.{stride};
ghost use Rattle.spec.specs.Reading.{reading, number, place, listed, room_after};
ghost use Rattle.bench_entries.specs.First.{first_of};

// The message s under the first sixteen entries of these numbers: how many records are in the room, and the place of the refusal; the refusal's
// number is the result.
#[unsafe(no_mangle)]
pub extern "C" fn perf_entries_read(
    types: u32,
    numbers: &[u32],
    s: &[u8],
    room: &mut [u64],
    answer: &mut [u64; 2],
) -> u32
    ensures { (result ≡ number (reading (first_of types numbers.now) (length room.old / stride) s.now))
        × (answer.new ≡ length (listed (reading (first_of types numbers.now) (length room.old / stride) s.now))
        ∷ place (reading (first_of types numbers.now) (length room.old / stride) s.now) ∷ [])
        × (room.new ≡ room_after (reading (first_of types numbers.now) (length room.old / stride) s.now) room.old) }
{
    bench_entries::perf_entries_read(types, numbers, s, room, answer)
}
