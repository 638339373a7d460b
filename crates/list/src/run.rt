// The records in order, with the types of the messages that are open.
ghost use Rattle.std.specs.Prelude.{◌≡◌, ◌∷◌, [], ◌/◌, ◌%◌, ◌≤◌, length, Err};
ghost use Rattle.spec.specs.Record.{records_of, stride};
ghost use Rattle.spec.specs.Schema.{Schema};
ghost use Rattle.spec.specs.Told.{number_of};
ghost use Rattle.spec.specs.Writing.{Fields, Faulty, list_fault};
ghost use Rattle.list.specs.Told.{as_verdict};
ghost use Rattle.list.specs.Checking.{Made, Elapsed};

use crate::record::{Owner, ask, delimited_fault, value_fits};
use schema::layout::{INFO, KEYS};
use spec::answers::Fault;
use spec::columns::{KIND, NUMBER, STRIDE, VALUE};
use spec::limits::MOST_LEVELS;
use spec::refusals::Refusal;
use spec::{kinds, wire_types};
use wire::wire_format::record_wires;

// How many messages may be open: the root, and one at each level.
const MOST_OPEN: usize = MOST_LEVELS as usize + 1;

// Passes the records of this depth from a place on, which are to have this number and kind: the place after them, or that of one with a fault.
// A `for` over the records would be no plainer: the answer is a place in the list, which it would work out from the count of those passed.
fn elements(list: &[u64], from: usize, depth: u64, number: u64, kind: u64) -> Result<usize, usize>
    requires { (from ≤ length list.now) × (from % stride ≡ 0) }
    ensures { Elapsed list.now from depth number kind result }
{
    let mut at = from;
    while STRIDE <= list.len() - at {
        if list[at] != depth {
            return Ok(at);
        }
        if list[at + NUMBER] != number || list[at + KIND] != kind {
            return Err(at);
        }
        if !value_fits(kind, list[at + VALUE]) {
            return Err(at);
        }
        at += STRIDE;
    }
    Ok(at)
}

// A refusal of the record at a place.
fn fault(refusal: Refusal, at: usize) -> Fault
    ensures { as_verdict (Err result) ≡ Faulty (number_of refusal) (at / stride) }
{
    Fault {
        refusal,
        index: at / STRIDE,
    }
}

// The first fault of a list under the tables of a schema.
pub(crate) fn list_fault(
    keys: &[u64; KEYS],
    info: &[u8; INFO],
    list: &[u64],
    payload: &[u8],
) -> Result<(), Fault>
    ensures { (sch : Schema) → Made sch keys.now info.now
        → as_verdict result ≡ list_fault sch payload.now 0 (Fields 0 ∷ []) (records_of list.now) }
{
    let table = record_wires();
    let mut open: [u8; MOST_OPEN] = [0; MOST_OPEN];
    let mut owner = Owner::of(0);
    let mut depth: u64 = 0;
    let mut at: usize = 0;
    while STRIDE <= list.len() - at {
        let d = list[at];
        if d != depth {
            if depth < d {
                return Err(fault(Refusal::InvalidList, at));
            }
            depth = d;
            owner = Owner::of(open[d as usize]);
        }
        let number = list[at + NUMBER];
        let kind = list[at + KIND];
        let Some(inner) = ask(&table, keys, info, owner, number, kind) else {
            return Err(fault(Refusal::InvalidList, at));
        };
        let w = table[kind as usize];
        if w != wire_types::DELIMITED {
            if !value_fits(kind, list[at + VALUE]) {
                return Err(fault(Refusal::InvalidList, at));
            }
            at += STRIDE;
        } else {
            if let Err(refusal) = delimited_fault(list, payload, at, kind, depth) {
                return Err(fault(refusal, at));
            }
            at += STRIDE;
            if kind == kinds::MESSAGE {
                depth += 1;
                owner = Owner::of(inner);
                open[depth as usize] = inner;
            } else if kind == kinds::PACKED_HEAD {
                match elements(list, at, depth + 1, number, u64::from(inner)) {
                    Ok(after) => at = after,
                    Err(bad) => return Err(fault(Refusal::InvalidList, bad)),
                }
            }
        }
    }
    if at < list.len() {
        return Err(fault(Refusal::InvalidList, at));
    }
    Ok(())
}
