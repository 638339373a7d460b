// The bytes of a list that the check found without fault, from the last to the first: a length stands before its content, so a run of records is
// written from its last record to its first, and every length is known when it is written. The work grows with the records and the bytes alone,
// however deep they nest.
// The table, the list and the payload are arguments of their own and no struct: behind a reference to one, the list's address would be loaded anew after
// each store, which was counted as 7% more instructions in `put_run`.
ghost use Rattle.std.specs.Prelude.{◌≡◌, true, false, not, ◌++◌, ◌+◌, ◌-◌, ◌*◌, ◌/◌, ◌%◌, ◌≤◌, length, take, get_or, if◌then◌else◌};
ghost use Rattle.spec.specs.Names.{largest_number, no_wire, number_column, record_kinds};
ghost use Rattle.spec.specs.Base.{part, filled};
ghost use Rattle.spec.specs.Varint.{encode, little};
ghost use Rattle.spec.specs.Kind.{wires, shape, wire, is_scalar};
ghost use Rattle.spec.specs.Record.{records_of, stride};
ghost use Rattle.spec.specs.Writing.{tag_of, written};
ghost use Rattle.spec.proofs.WritingLaws.{bytes_in};
ghost use Rattle.sizes.specs.SizeParts.{coded};
ghost use Rattle.write.specs.Backward.{Stored, Room, four, at, kind_at, span, start, plain, Given, Here, lead_of, number_of, head_of, Leads, Upto, Run, Inner, is_packed, Values, Ran, nine_bytes};

use crate::measure::is_head;
use copy::put_bytes;
use sizes::{coded_of, compute_raw_varint64_size};
use spec::columns::{END, KIND, NUMBER, START, STRIDE, VALUE};
use spec::kinds::RECORD_KINDS;
use spec::{kinds, wire_types};

// How far before the end of a record its numbers are.
const NUMBER_BACK: usize = STRIDE - NUMBER;

const KIND_BACK: usize = STRIDE - KIND;

const VALUE_BACK: usize = STRIDE - VALUE;

// The least values whose varints take two bytes, three, four and nine: a byte has seven bits of the value.
const TWO_BYTES: u64 = 0x80;

const THREE_BYTES: u64 = 0x4000;

const FOUR_BYTES: u64 = 0x20_0000;

const NINE_BYTES: u64 = 0x100_0000_0000_0000;

// To divide by these leaves out the lowest two groups of seven bits, and the lowest four.
const TWO_GROUPS: u64 = 0x4000;

const FOUR_GROUPS: u64 = 0x1000_0000;

// How many values are put as if their sizes changed, after one that has more than one byte.
const HINTS: u64 = 32;

// A place in the list, and one in the output: from there on it is written.
#[derive(Drop)]
struct Back {
    at: usize,
    pos: usize,
}

// A place in the output from which on it is written, and what is guessed of the values before it.
#[derive(Drop)]
struct Hinted {
    pos: usize,
    hint: u64,
}

// A varint that ends before p; its start. It is written forward, from the place that its size gives.
fn long_varint(out: &mut [u8], p: usize, v: u64) -> usize
    requires { Room (encode v) p out.old }
    ensures { Stored (encode v) p out.old result out.new }
{
    let size = compute_raw_varint64_size(v) as usize;
    let q = p - size;
    let mut i = q;
    let mut x = v;
    while TWO_BYTES <= x {
        out[i] = (128 + x % 128) as u8;
        x = x / 128;
        i += 1;
    }
    out[i] = x as u8;
    q
}

// The same, with the short ones at once.
fn put_varint(out: &mut [u8], p: usize, v: u64) -> usize
    requires { Room (encode v) p out.old }
    ensures { Stored (encode v) p out.old result out.new }
{
    if v < TWO_BYTES {
        let q = p - 1;
        out[q] = v as u8;
        return q;
    }
    if v < THREE_BYTES {
        let q = p - 2;
        out[q] = (128 + v % 128) as u8;
        out[q + 1] = (v / 128) as u8;
        return q;
    }
    long_varint(out, p, v)
}

// Four bytes of the varint of v, after which others come.
fn put_four(out: &mut [u8], p: usize, v: u64) -> usize
    requires { (4 ≤ p) × (p ≤ length out.old) }
    ensures { Stored (four v) p out.old result out.new }
{
    let v1 = v / 128;
    let v2 = v1 / 128;
    let v3 = v2 / 128;
    let q = p - 4;
    out[q] = (128 + v % 128) as u8;
    out[q + 1] = (128 + v1 % 128) as u8;
    out[q + 2] = (128 + v2 % 128) as u8;
    out[q + 3] = (128 + v3 % 128) as u8;
    q
}

// A varint of nine or ten bytes, as negative numbers have.
fn put_far(out: &mut [u8], p: usize, v: u64) -> usize
    requires { (nine_bytes ≤ v) × Room (encode v) p out.old }
    ensures { Stored (encode v) p out.old result out.new }
{
    let high = v / FOUR_GROUPS;
    let q = put_varint(out, p, high / FOUR_GROUPS);
    let r = put_four(out, q, high);
    put_four(out, r, v)
}

// The same where sizes change from one varint to the next: those of up to three bytes without a branch on how many they have, which would be mispredicted.
// Three bytes are stored, the last in its place; what that leaves before the first is overwritten by what comes before it.
fn put_mixed(out: &mut [u8], p: usize, v: u64) -> usize
    requires { Room (encode v) p out.old }
    ensures { Stored (encode v) p out.old result out.new }
{
    if NINE_BYTES <= v {
        return put_far(out, p, v);
    }
    if FOUR_BYTES <= v {
        return long_varint(out, p, v);
    }
    if p < 3 {
        return long_varint(out, p, v);
    }
    let mut z = v * TWO_GROUPS;
    let mut q = p - 1;
    if TWO_BYTES <= v {
        z = v * 128;
        q = p - 2;
    }
    if THREE_BYTES <= v {
        z = v;
        q = p - 3;
    }
    out[p - 3] = (128 + z % 128) as u8;
    out[p - 2] = (128 + z / 128 % 128) as u8;
    out[p - 1] = (z / TWO_GROUPS) as u8;
    q
}

// A value as a varint. The hint is 0 while values have one byte, and else how many more are put as if their sizes changed.
fn put_value(out: &mut [u8], p: usize, v: u64, hint: u64) -> Hinted
    requires { Room (encode v) p out.old }
    ensures { Stored (encode v) p out.old result.pos out.new }
{
    if 0 < hint {
        let pos = put_mixed(out, p, v);
        return Hinted {
            pos,
            hint: hint - 1,
        };
    }
    if v < TWO_BYTES {
        let pos = p - 1;
        out[pos] = v as u8;
        return Hinted { pos, hint: 0 };
    }
    let pos = long_varint(out, p, v);
    Hinted { pos, hint: HINTS }
}

// So many bytes of a fixed value, the lowest first.
fn put_fixed<const N: usize>(out: &mut [u8], p: usize, bytes: &[u8; N]) -> usize
    requires { Room bytes.now p out.old }
    ensures { Stored bytes.now p out.old result out.new }
{
    let q = p - N;
    out[q..p].copy_from_slice(bytes);
    q
}

fn put_fixed32(out: &mut [u8], p: usize, v: u64) -> usize
    requires { Room (little 4 v) p out.old }
    ensures { Stored (little 4 v) p out.old result out.new }
{
    let low = (v % 0x1_0000_0000) as u32;
    put_fixed(out, p, &low.to_le_bytes())
}

fn put_fixed64(out: &mut [u8], p: usize, v: u64) -> usize
    requires { Room (little 8 v) p out.old }
    ensures { Stored (little 8 v) p out.old result out.new }
{
    put_fixed(out, p, &v.to_le_bytes())
}

// A value of a kind that is one number and whose wire type is w.
fn put_plain(out: &mut [u8], p: usize, kind: u64, w: u8, v: u64) -> usize
    requires { (w ≡ wire kind) × (is_scalar (shape kind) ≡ true) × Room (plain (shape kind) v) p out.old }
    ensures { Stored (plain (shape kind) v) p out.old result out.new }
{
    if w < wire_types::FIXED64 {
        return put_varint(out, p, coded_of(kind, v));
    }
    if w < wire_types::FIXED32 {
        return put_fixed64(out, p, v);
    }
    put_fixed32(out, p, v)
}

// A content, which lies in the payload.
fn put_content(payload: &[u8], out: &mut [u8], p: usize, start: u64, stop: u64) -> usize
    requires { (start ≤ stop) × (stop ≤ length payload.now) × Room (part start stop payload.now) p out.old }
    ensures { Stored (part start stop payload.now) p out.old result out.new }
{
    let a = start as usize;
    let e = stop as usize;
    let q = p - (e - a);
    put_bytes(&payload[a..e], out, q);
    q
}

// What stands after the tag of the record at b, in which nothing is.
fn put_body(list: &[u64], payload: &[u8], out: &mut [u8], b: usize, w: u8, p: usize) -> usize
    requires { Here list.now payload.now b × (w ≡ wire (kind_at list.now (b / stride))) × Room (lead_of list.now payload.now b 0) p out.old }
    ensures { Stored (lead_of list.now payload.now b 0) p out.old result out.new }
{
    let kind = list[b + KIND];
    if w != wire_types::DELIMITED {
        return put_plain(out, p, kind, w, list[b + VALUE]);
    }
    let mut q = p;
    if !is_head(kind) {
        q = put_content(payload, out, p, list[b + START], list[b + END]);
    }
    put_varint(out, q, (p - q) as u64)
}

// The record at b, in which nothing is.
fn put_record(
    table: &[u8; RECORD_KINDS],
    list: &[u64],
    payload: &[u8],
    out: &mut [u8],
    b: usize,
    p: usize,
) -> usize
    requires { (table.now ≡ take record_kinds wires) × Here list.now payload.now b × Room (tag_of true (at list.now (b / stride)) ++ lead_of list.now payload.now b 0) p out.old }
    ensures { Stored (tag_of true (at list.now (b / stride)) ++ lead_of list.now payload.now b 0) p out.old result out.new }
{
    let number = list[b + NUMBER];
    let kind = list[b + KIND];
    let w = table[kind as usize];
    let q = put_body(list, payload, out, b, w, p);
    let tag = number * 8 + w as u64;
    put_varint(out, q, tag)
}

// The same of one whose value is a varint, and whose wire type is w.
fn put_number(list: &[u64], out: &mut [u8], b: usize, w: u8, p: usize, hint: u64) -> Hinted
    requires { (b + stride ≤ length list.now) × (get_or list.now (b + number_column) 0 ≤ largest_number) × (w ≤ no_wire) × Room (number_of list.now b w) p out.old }
    ensures { Stored (number_of list.now b w) p out.old result.pos out.new }
{
    let kind = list[b + KIND];
    let r = put_value(out, p, coded_of(kind, list[b + VALUE]), hint);
    let tag = list[b + NUMBER] * 8 + w as u64;
    let pos = put_varint(out, r.pos, tag);
    Hinted { pos, hint: r.hint }
}

// The record at b, in which nothing is, by its wire type.
fn put_leaf(
    table: &[u8; RECORD_KINDS],
    list: &[u64],
    payload: &[u8],
    out: &mut [u8],
    b: usize,
    p: usize,
    hint: u64,
) -> Hinted
    requires { (table.now ≡ take record_kinds wires) × Here list.now payload.now b × Room (tag_of true (at list.now (b / stride)) ++ lead_of list.now payload.now b 0) p out.old }
    ensures { Stored (tag_of true (at list.now (b / stride)) ++ lead_of list.now payload.now b 0) p out.old result.pos out.new }
{
    let kind = list[b + KIND];
    let w = table[kind as usize];
    if w < wire_types::FIXED64 {
        return put_number(list, out, b, w, p, hint);
    }
    let pos = put_record(table, list, payload, out, b, p);
    Hinted { pos, hint }
}

// The head at b, in front of what is in it, which ends before `mark` and starts at p.
fn put_head(
    table: &[u8; RECORD_KINDS],
    list: &[u64],
    out: &mut [u8],
    b: usize,
    mark: usize,
    p: usize,
) -> usize
    requires { Leads table.now list.now b × (p ≤ mark) × Room (head_of table.now list.now b (mark - p)) p out.old }
    ensures { Stored (head_of table.now list.now b (mark - p)) p out.old result out.new }
{
    let number = list[b + NUMBER];
    let kind = list[b + KIND];
    let w = table[kind as usize];
    let q = put_varint(out, p, (mark - p) as u64);
    let tag = number * 8 + w as u64;
    put_varint(out, q, tag)
}

// Where the values of a packed field begin that end before upto, or upto where the run there has tags. Its head says so, and is right before
// them: each record is tested once, for its own run. The answer is a place in both cases, which the caller compares with upto.
fn packed_from(list: &[u64], depth: u64, upto: usize) -> usize
    requires { Upto list.now upto × Inner list.now depth upto }
    ensures { result ≡ (if is_packed list.now depth upto then stride * start list.now depth (upto / stride) else upto) }
{
    let number = list[upto - NUMBER_BACK];
    let mut b = upto;
    while list[b - STRIDE] == depth {
        if list[b - NUMBER_BACK] != number {
            return upto;
        }
        b -= STRIDE;
    }
    if list[b - KIND_BACK] == kinds::PACKED_HEAD {
        if list[b - STRIDE] < depth {
            return b;
        }
    }
    upto
}

// The values of a packed field, from the last to the first.
fn put_values(
    table: &[u8; RECORD_KINDS],
    list: &[u64],
    payload: &[u8],
    out: &mut [u8],
    first: usize,
    upto: usize,
    pos: usize,
) -> usize
    requires { Values table.now list.now payload.now out.old first upto pos }
    ensures { Stored (bytes_in false payload.now (span list.now (first / stride) (upto / stride))) pos out.old result out.new }
{
    let kind = list[upto - KIND_BACK];
    let w = table[kind as usize];
    let mut b = upto;
    let mut p = pos;
    while first < b {
        p = put_plain(out, p, kind, w, list[b - VALUE_BACK]);
        b -= STRIDE;
    }
    p
}

// The run at this depth that ends before upto and lies in a head.
#[cycle(put_inner_put_run)]
fn put_inner(
    table: &[u8; RECORD_KINDS],
    list: &[u64],
    payload: &[u8],
    out: &mut [u8],
    depth: u64,
    upto: usize,
    pos: usize,
) -> Back
    requires { Run (not (is_packed list.now depth upto)) table.now list.now payload.now out.old depth upto pos × Inner list.now depth upto }
    ensures { Ran (not (is_packed list.now depth upto)) list.now payload.now out.old depth upto pos result.at result.pos out.new }
{
    let first = packed_from(list, depth, upto);
    if first < upto {
        let p = put_values(table, list, payload, out, first, upto, pos);
        return Back { at: first, pos: p };
    }
    put_run(table, list, payload, out, depth, upto, pos)
}

// The run at this depth that ends before upto, with its tags.
#[cycle(put_inner_put_run)]
fn put_run(
    table: &[u8; RECORD_KINDS],
    list: &[u64],
    payload: &[u8],
    out: &mut [u8],
    depth: u64,
    upto: usize,
    pos: usize,
) -> Back
    requires { Run true table.now list.now payload.now out.old depth upto pos }
    ensures { Ran true list.now payload.now out.old depth upto pos result.at result.pos out.new }
{
    let mut b = upto;
    let mut p = pos;
    let mut hint: u64 = 0;
    while STRIDE <= b {
        let d = list[b - STRIDE];
        if d < depth {
            return Back { at: b, pos: p };
        }
        if d == depth {
            b -= STRIDE;
            let r = put_leaf(table, list, payload, out, b, p, hint);
            p = r.pos;
            hint = r.hint;
        } else {
            let r = put_inner(table, list, payload, out, depth + 1, b, p);
            b = r.at - STRIDE;
            p = put_head(table, list, out, b, p, r.pos);
        }
    }
    Back { at: b, pos: p }
}

// The bytes of a list that the check found without fault, at the front of the output: `size` is how many they are.
pub(crate) fn put_list(
    table: &[u8; RECORD_KINDS],
    list: &[u64],
    payload: &[u8],
    out: &mut [u8],
    size: usize,
)
    requires { (table.now ≡ take record_kinds wires) × Given list.now payload.now × (size ≡ length (written payload.now (records_of list.now))) × (size ≤ length out.old) }
    ensures { out.new ≡ filled (written payload.now (records_of list.now)) out.old }
{
    put_run(table, list, payload, out, 0, list.len(), size);
}
