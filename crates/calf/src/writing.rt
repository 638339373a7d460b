// A list of records: checked, its size, and its bytes.
ghost use Rattle.std.specs.Prelude.{◌≡◌, [], ◌∷◌, length};
ghost use Rattle.spec.specs.Record.{records_of};
ghost use Rattle.spec.specs.Schema.{schema_of};
ghost use Rattle.spec.specs.Writing.{list_check, sizing, writing, number, size, index, output};
ghost use Rattle.calf.specs.Told.{fault_of, index_of};

use crate::told;

// Whether a list is what reading under the schema would give: the index of its fault, or the first bad entry of the schema.
pub fn calf_check_list(
    types: u32,
    numbers: &[u32],
    list: &[u64],
    payload: &[u8],
    answer: &mut [u64; 1],
) -> u32
    ensures { (result ≡ fault_of (list_check (schema_of types numbers.now) payload.now (records_of list.now)))
        × (answer.new ≡ index_of (list_check (schema_of types numbers.now) payload.now (records_of list.now)) ∷ []) }
{
    told::checked(list::check(types, numbers, list, payload), answer)
}

// How many bytes a list takes when it is written, and the index of its fault.
pub fn calf_size(
    types: u32,
    numbers: &[u32],
    list: &[u64],
    payload: &[u8],
    answer: &mut [u64; 2],
) -> u32
    ensures { (result ≡ number (sizing (schema_of types numbers.now) payload.now (records_of list.now)))
        × (answer.new ≡ size (sizing (schema_of types numbers.now) payload.now (records_of list.now))
        ∷ index (sizing (schema_of types numbers.now) payload.now (records_of list.now)) ∷ []) }
{
    told::written(write::size(types, numbers, list, payload), answer)
}

// Writes a list to the front of `out`: how many bytes it takes, and the index of its fault.
pub fn calf_write(
    types: u32,
    numbers: &[u32],
    list: &[u64],
    payload: &[u8],
    out: &mut [u8],
    answer: &mut [u64; 2],
) -> u32
    ensures { (result ≡ number (writing (schema_of types numbers.now) (length out.old) payload.now (records_of list.now)))
        × (answer.new ≡ size (writing (schema_of types numbers.now) (length out.old) payload.now (records_of list.now))
        ∷ index (writing (schema_of types numbers.now) (length out.old) payload.now (records_of list.now)) ∷ [])
        × (out.new ≡ output (writing (schema_of types numbers.now) (length out.old) payload.now (records_of list.now)) out.old) }
{
    told::written(write::write(types, numbers, list, payload, out), answer)
}
