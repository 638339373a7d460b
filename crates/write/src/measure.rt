// The size of a list that the check found without fault, level by level: a run of records, and for each head the run below it.
// A content's length is cut off just above the limit, and a list has no more records than its size has bytes, so no sum can wrap.
// The table and the list are arguments of their own and no struct, which was counted as 3% to 5% more instructions in `run_size` where messages nest.
ghost use Rattle.std.specs.Prelude.{◌≡◌, true, false, not, ◌||◌, ◌≤◌, eqb};
ghost use Rattle.spec.specs.Names.{largest_number, packed_head};
ghost use Rattle.spec.specs.Varint.{tag_size};
ghost use Rattle.spec.specs.Kind.{shape, wire, is_scalar, head_kind};
ghost use Rattle.spec.specs.Record.{records_of};
ghost use Rattle.spec.specs.Sizes.{value_size, size_of};
ghost use Rattle.spec.proofs.RunLaws.{Passed};
ghost use Rattle.sizes.specs.SizeParts.{capped};
ghost use Rattle.write.specs.Summing.{Run, Elements, Below, Summed};

use sizes::{coded_of, compute_raw_varint64_size, cut};
use spec::columns::{END, KIND, NUMBER, START, STRIDE, VALUE};
use spec::kinds::RECORD_KINDS;
use spec::{kinds, wire_types};
use wire::wire_format::{MAX_MESSAGE_SIZE, record_wires};

// The most numbers of a list whose size is within the limit: each record takes at least a byte.
const NUMBERS_MAX: usize = STRIDE * MAX_MESSAGE_SIZE as usize;

// The least number of a field whose tag takes two bytes: a tag is eight times the number, and the wire type.
const TWO_BYTE_TAG: u64 = 16;

// A place in the list, and the bytes that what lies before it takes.
#[derive(Drop)]
struct Sum {
    at: usize,
    size: u64,
}

// How many bytes a tag takes, as `sizes::tag_size` says. Most take one, which is asked first: the general way takes longer.
fn tag_size(number: u64) -> u64
    requires { number ≤ largest_number }
    ensures { result ≡ tag_size number }
{
    if number < TWO_BYTE_TAG {
        return 1;
    }
    compute_raw_varint64_size(number * 8)
}

// The size of a value of a kind that is one number and whose wire type is w, as `sizes::value_size` finds it for any kind.
fn plain_size(kind: u64, w: u8, value: u64) -> u64
    requires { (w ≡ wire kind) × (is_scalar (shape kind) ≡ true) }
    ensures { result ≡ value_size (shape kind) value }
{
    match w {
        wire_types::VARINT => compute_raw_varint64_size(coded_of(kind, value)),
        wire_types::FIXED64 => 8,
        _ => 4,
    }
}

pub(crate) fn is_head(kind: u64) -> bool
    ensures { result ≡ head_kind kind }
{
    kind == kinds::MESSAGE || kind == kinds::PACKED_HEAD
}

// The values of a packed field, from the place `from` on, at this depth.
// The loop counts the place, which is part of the answer.
fn elements_size(table: &[u8; RECORD_KINDS], list: &[u64], from: usize, depth: u64) -> Sum
    requires { Elements table.now list.now from depth }
    ensures { Summed false list.now from depth result.at result.size }
{
    let kind = list[from + KIND];
    let w = table[kind as usize];
    let mut at = from;
    let mut size: u64 = 0;
    while at < list.len() {
        if list[at] != depth {
            return Sum { at, size };
        }
        size += plain_size(kind, w, list[at + VALUE]);
        at += STRIDE;
    }
    Sum { at, size }
}

// What lies below a head of this kind, from the place `from` on, at this depth.
#[cycle(below_size_run_size)]
fn below_size(table: &[u8; RECORD_KINDS], list: &[u64], from: usize, depth: u64, kind: u64) -> Sum
    requires { Below table.now list.now from depth kind }
    ensures { Summed (not (eqb kind packed_head)) list.now from depth result.at result.size }
{
    if kind == kinds::MESSAGE {
        return run_size(table, list, from, depth);
    }
    elements_size(table, list, from, depth)
}

// A run of records and all below them, from the place `from` on, at this depth. What is below a head is passed by the place where it ends.
#[cycle(below_size_run_size)]
fn run_size(table: &[u8; RECORD_KINDS], list: &[u64], from: usize, depth: u64) -> Sum
    requires { Run table.now list.now from depth }
    ensures { Summed true list.now from depth result.at result.size }
{
    let mut at = from;
    let mut size: u64 = 0;
    while at < list.len() {
        if list[at] != depth {
            return Sum { at, size };
        }
        let number = list[at + NUMBER];
        let kind = list[at + KIND];
        let w = table[kind as usize];
        size += tag_size(number);
        if w != wire_types::DELIMITED {
            size += plain_size(kind, w, list[at + VALUE]);
            at += STRIDE;
        } else {
            let mut n: u64 = 0;
            if is_head(kind) {
                let r = below_size(table, list, at + STRIDE, depth + 1, kind);
                n = r.size;
                at = r.at;
            } else {
                n = cut(list[at + END] - list[at + START]);
                at += STRIDE;
            }
            size += compute_raw_varint64_size(n) + n;
        }
    }
    Sum { at, size }
}

// The size of a list that the check found without fault, cut off above the limit.
pub(crate) fn list_size(list: &[u64]) -> u64
    requires { Passed (records_of list.now) }
    ensures { result ≡ capped (size_of (records_of list.now)) }
{
    if NUMBERS_MAX < list.len() {
        return MAX_MESSAGE_SIZE + 1;
    }
    let table = record_wires();
    let r = run_size(&table, list, 0, 0);
    cut(r.size)
}
