// The list writer: the size of a list, and its bytes in a lent output.
#![tactic(auto)]

ghost use Rattle.std.specs.Prelude.{◌≡◌, length};
ghost use Rattle.spec.specs.Schema.{schema_of};
ghost use Rattle.spec.specs.Record.{records_of};
ghost use Rattle.spec.specs.Told.{written_number, written_size, written_index};
ghost use Rattle.spec.specs.Writing.{written, sized, sizing, writing, number, size, index, output};
ghost use Rattle.sizes.specs.Answers.{Tells};
ghost use Rattle.write.specs.Backward.{Given};

mod bytes;
mod measure;

use crate::bytes::put_list;
use crate::measure::list_size;
use list::check;
use sizes::by_size;
use spec::answers::Unwritten;
use wire::wire_format::{MAX_MESSAGE_SIZE, record_wires};

// Writes a list that the check found without fault, where its size is within the limit and the output has room for it.
fn write_checked(list: &[u64], payload: &[u8], out: &mut [u8]) -> Result<usize, Unwritten>
    requires { Given list.now payload.now }
    ensures answer { Tells (sized (length out.old) (written payload.now (records_of list.now))) result }
    ensures output { out.new ≡ output (sized (length out.old) (written payload.now (records_of list.now))) out.old }
{
    let size = by_size(out.len() as u64, list_size(list))?;
    put_list(&record_wires(), list, payload, out, size);
    Ok(size)
}

// The size of a list under a schema of five numbers an entry: as `write` answers where there is all the room that can be needed.
pub fn size(types: u32, numbers: &[u32], list: &[u64], payload: &[u8]) -> Result<usize, Unwritten>
    ensures number { written_number result ≡ number (sizing (schema_of types numbers.now) payload.now (records_of list.now)) }
    ensures size { written_size result ≡ size (sizing (schema_of types numbers.now) payload.now (records_of list.now)) }
    ensures index { written_index result ≡ index (sizing (schema_of types numbers.now) payload.now (records_of list.now)) }
{
    check(types, numbers, list, payload)?;
    by_size(MAX_MESSAGE_SIZE, list_size(list))
}

// Writes a list under a schema of five numbers an entry to the front of the output, whole or not at all. The answer is how many bytes were written; where
// the output is too short, the refusal has the size that is needed.
pub fn write(
    types: u32,
    numbers: &[u32],
    list: &[u64],
    payload: &[u8],
    out: &mut [u8],
) -> Result<usize, Unwritten>
    ensures number { written_number result ≡ number (writing (schema_of types numbers.now) (length out.old) payload.now (records_of list.now)) }
    ensures size { written_size result ≡ size (writing (schema_of types numbers.now) (length out.old) payload.now (records_of list.now)) }
    ensures index { written_index result ≡ index (writing (schema_of types numbers.now) (length out.old) payload.now (records_of list.now)) }
    ensures output { out.new ≡ output (writing (schema_of types numbers.now) (length out.old) payload.now (records_of list.now)) out.old }
{
    check(types, numbers, list, payload)?;
    write_checked(list, payload, out)
}
