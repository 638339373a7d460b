// What the calls return: the refusal's number, 0 for none, and all else in the lent array. There is one function for each shape of answer.
ghost use Rattle.std.specs.Prelude.{◌≡◌, [], ◌∷◌};
ghost use Rattle.spec.specs.Told.{read_number, read_count, read_place, written_number, written_size, written_index};
ghost use Rattle.schema.specs.Told.{bad_place};
ghost use Rattle.list.specs.Told.{as_verdict};
ghost use Rattle.skip.specs.Passed.{skipped_number, skipped_used};
ghost use Rattle.calf.specs.Told.{refused, pair, number_of, entry_of, fault_of, index_of};

use schema::BadEntry;
use spec::answers::{Fault, Stopped, Unwritten};
use spec::refusals::Refusal;
use wire::found::Found;

// A varint: its value and the place after it, or two zeros.
pub(crate) fn found(f: Result<Found, Refusal>, answer: &mut [u64; 2]) -> u32
    ensures { (result ≡ refused f) × (answer.new ≡ pair f) }
{
    match f {
        Ok(Found { value, next }) => {
            *answer = [value, next as u64];
            0
        }
        Err(refusal) => {
            *answer = [0, 0];
            refusal.number()
        }
    }
}

// A skip: how many bytes it took.
pub(crate) fn skipped(used: Result<usize, Refusal>, answer: &mut [u64; 1]) -> u32
    ensures { (result ≡ skipped_number used) × (answer.new ≡ skipped_used used ∷ []) }
{
    match used {
        Ok(used) => {
            *answer = [used as u64];
            0
        }
        Err(refusal) => {
            *answer = [0];
            refusal.number()
        }
    }
}

// A check of a schema: the index of its first bad entry.
pub(crate) fn valid(found: Result<(), BadEntry>, answer: &mut [u64; 1]) -> u32
    ensures { (result ≡ number_of (bad_place found)) × (answer.new ≡ entry_of (bad_place found) ∷ []) }
{
    match found {
        Ok(()) => {
            *answer = [0];
            0
        }
        Err(bad) => {
            *answer = [bad.index as u64];
            Refusal::InvalidSchema.number()
        }
    }
}

// A check of a list: the index of its fault.
#[tactic(auto, unfolding(list::specs::Told::as_verdict))]
pub(crate) fn checked(verdict: Result<(), Fault>, answer: &mut [u64; 1]) -> u32
    ensures { (result ≡ fault_of (as_verdict verdict)) × (answer.new ≡ index_of (as_verdict verdict) ∷ []) }
{
    match verdict {
        Ok(()) => {
            *answer = [0];
            0
        }
        Err(fault) => {
            *answer = [fault.index as u64];
            fault.refusal.number()
        }
    }
}

// A reading: how many records or ranges stand in the room, and the place of the refusal.
pub(crate) fn read(count: Result<usize, Stopped>, answer: &mut [u64; 2]) -> u32
    ensures { (result ≡ read_number count) × (answer.new ≡ read_count count ∷ read_place count ∷ []) }
{
    match count {
        Ok(count) => {
            *answer = [count as u64, 0];
            0
        }
        Err(stopped) => {
            *answer = [stopped.count as u64, stopped.place as u64];
            stopped.refusal.number()
        }
    }
}

// A writing, or a size: how many bytes are written or needed, and the index of the fault.
pub(crate) fn written(size: Result<usize, Unwritten>, answer: &mut [u64; 2]) -> u32
    ensures { (result ≡ written_number size) × (answer.new ≡ written_size size ∷ written_index size ∷ []) }
{
    match size {
        Ok(size) => {
            *answer = [size as u64, 0];
            0
        }
        Err(unwritten) => {
            *answer = [unwritten.size as u64, unwritten.index as u64];
            unwritten.refusal.number()
        }
    }
}
