// Reading under a schema that is lent as a slice of entries. The crate `bench_entries_c` exports it for C, so that bench/ can count `entries::read`. A call
// that lends structs is not exported, so this one takes five numbers an entry and makes an array of them, which is short, so that nearly all that is counted is the call.
#![tactic(auto)]

ghost use Rattle.std.specs.Prelude.{◌≡◌, [], ◌∷◌, ◌/◌, length};
ghost use Rattle.spec.specs.Record.{stride};
ghost use Rattle.spec.specs.Reading.{reading, number, place, listed, room_after};
ghost use Rattle.bench_entries.specs.First.{first_of};

use entries::NO_ENTRY;

// How many entries are made at most.
const MOST_MADE: usize = 16;

// The message s under the first sixteen entries of these numbers: how many records are in the room, and the place of the refusal; the refusal's
// number is the result.
pub fn perf_entries_read(
    types: u32,
    numbers: &[u32],
    s: &[u8],
    room: &mut [u64],
    answer: &mut [u64; 2],
) -> u32
    ensures { (result ≡ number (reading (first_of types numbers.now) (length room.old / stride) s.now))
        × (answer.new ≡ length (listed (reading (first_of types numbers.now) (length room.old / stride) s.now))
        ∷ place (reading (first_of types numbers.now) (length room.old / stride) s.now) ∷ [])
        × (room.new ≡ room_after (reading (first_of types numbers.now) (length room.old / stride) s.now) room.old) }
{
    let mut made_in = [NO_ENTRY; MOST_MADE];
    let count = entries::made(numbers, &mut made_in);
    match entries::read(types, &made_in[..count], s, room) {
        Ok(count) => {
            *answer = [count as u64, 0];
            0
        }
        Err(stopped) => {
            *answer = [stopped.count as u64, stopped.place as u64];
            stopped.refusal.number()
        }
    }
}
