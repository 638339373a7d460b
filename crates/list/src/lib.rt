// The list check: whether a list of records is what reading under a schema would give.
#![tactic(auto)]

ghost use Rattle.std.specs.Prelude.{◌≡◌};
ghost use Rattle.spec.specs.Record.{records_of};
ghost use Rattle.spec.specs.Schema.{schema_of};
ghost use Rattle.spec.specs.Writing.{list_check};
ghost use Rattle.list.specs.Told.{as_verdict};

mod record;
mod run;

use crate::run::list_fault;
use schema::layout::{INFO, KEYS, NO_KEY};
use schema::note_entries;
use spec::answers::Fault;

// Checks a list of records (STRIDE numbers each), whose contents lie in `payload`, under a schema of entries (ENTRY_STRIDE numbers each). A fault has the
// index of its record, or of the bad entry where the schema is not valid.
pub fn check(types: u32, numbers: &[u32], list: &[u64], payload: &[u8]) -> Result<(), Fault>
    ensures { as_verdict result ≡ list_check (schema_of types numbers.now) payload.now (records_of list.now) }
{
    let mut keys: [u64; KEYS] = [NO_KEY; KEYS];
    let mut info: [u8; INFO] = [0; INFO];
    note_entries(types, numbers, &mut keys, &mut info)?;
    list_fault(&keys, &info, list, payload)
}
