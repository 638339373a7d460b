// UTF-8, by the table of RFC 3629: how much of some bytes is valid, and whether all is.
#![tactic(auto)]

ghost use Rattle.std.specs.Prelude.{◌≡◌, true, ◌+◌, ◌<◌, ◌≤◌, length};
ghost use Rattle.spec.specs.Base.{between};
ghost use Rattle.spec.specs.Utf8.{followers, valid_prefix, utf8};
ghost use Rattle.utf8.specs.Text.{Low, Passed, Ends};

mod leads;

use leads::{LEADS, Lead};

// The high bit of each byte of a word.
const HIGH_BITS: u64 = 0x8080_8080_8080_8080;

// Whether the eight bytes from i on are ASCII: none has its high bit. They are a single load.
fn ascii8(s: &[u8], i: usize) -> bool
    requires { i + 8 ≤ length s.now }
    ensures { result ≡ true → Low 8 s.now i }
{
    let word = <[u8; 8]>::try_from(&s[i..i + 8]).unwrap();
    u64::from_le_bytes(word) & HIGH_BITS == 0
}

// Past the last bytes, at most eight, if they are ASCII. Fewer than eight are tested together with those before them.
fn ascii_end(s: &[u8], i: usize) -> usize
    requires { (i ≤ length s.now) × (length s.now ≤ i + 8) }
    ensures { Passed s.now i result }
{
    if 8 <= s.len() && ascii8(s, s.len() - 8) {
        return s.len();
    }
    i
}

// Past ASCII, as far as words go: sixteen bytes an iteration.
fn ascii_words(s: &[u8], i: usize) -> usize
    requires { i ≤ length s.now }
    ensures { Passed s.now i result }
{
    let mut j = i;
    while 16 <= s.len() - j {
        if !ascii8(s, j) {
            return j;
        }
        if !ascii8(s, j + 8) {
            return j + 8;
        }
        j += 16;
    }
    if 8 <= s.len() - j {
        if !ascii8(s, j) {
            return j;
        }
        j += 8;
    }
    ascii_end(s, j)
}

// Past all ASCII from i on. The last bytes are passed by their place, which is the answer.
fn ascii_run(s: &[u8], i: usize) -> usize
    requires { i ≤ length s.now }
    ensures { Passed s.now i result }
{
    let mut j = ascii_words(s, i);
    while j < s.len() && s[j] < 0x80 {
        j += 1;
    }
    j
}

// Past all characters of two bytes from i on.
fn pair_run(s: &[u8], i: usize) -> usize
    requires { i ≤ length s.now }
    ensures { Passed s.now i result }
{
    let mut j = i;
    while let [0xc2..=0xdf, 0x80..=0xbf, ..] = &s[j..] {
        j += 2;
    }
    j
}

// Past all characters of three bytes from i on that begin with e1 to ec: their followers have no bounds of their own.
fn triple_run(s: &[u8], i: usize) -> usize
    requires { i ≤ length s.now }
    ensures { Passed s.now i result }
{
    let mut j = i;
    while let [0xe1..=0xec, 0x80..=0xbf, 0x80..=0xbf, ..] = &s[j..] {
        j += 3;
    }
    j
}

// Past characters of the sort that may stand at i, where a run of them is quick; else no further than i.
fn quick_run(s: &[u8], i: usize) -> usize
    requires { i < length s.now }
    ensures { Passed s.now i result }
{
    let b = s[i];
    if b < 0x80 {
        ascii_run(s, i + 1)
    } else if b < 0xe0 {
        pair_run(s, i)
    } else {
        triple_run(s, i)
    }
}

// Past characters like the one before i, where a run of them is quick; else no further than i.
fn same_run(s: &[u8], i: usize, lead: Lead) -> usize
    requires { i ≤ length s.now }
    ensures { Passed s.now i result }
{
    match lead.followers {
        0 => ascii_run(s, i),
        1 => pair_run(s, i),
        // not after e0, the one with a higher bound: most often e0 comes again, which no quick run passes
        2 if lead.lowest == 0x80 => triple_run(s, i),
        _ => i,
    }
}

// Two comparisons: the library's `contains` takes the byte by reference, and is no plainer.
fn within(b: u8, low: u8, high: u8) -> bool
    ensures { result ≡ between low high b }
{
    low <= b && b <= high
}

// Whether the bytes that a lead byte needs stand at the front. It compares the number of them in this order, since a match is compiled to a jump through a table,
// which takes up to twice the time on texts whose characters have several lengths. The length is tested where the number is known: then the next place comes from
// the branch that was guessed, and not from the table.
fn follows(s: &[u8], lead: Lead) -> bool
    requires { lead.followers ≤ 3 }
    ensures { result ≡ followers lead.followers lead.lowest lead.highest s.now }
{
    if lead.followers == 2 {
        if s.len() < 2 {
            return false;
        }
        within(s[0], lead.lowest, lead.highest) && within(s[1], 0x80, 0xbf)
    } else if lead.followers < 2 {
        if lead.followers == 0 {
            return true;
        }
        1 <= s.len() && within(s[0], lead.lowest, lead.highest)
    } else {
        if s.len() < 3 {
            return false;
        }
        within(s[0], lead.lowest, lead.highest)
            && within(s[1], 0x80, 0xbf)
            && within(s[2], 0x80, 0xbf)
    }
}

// The end of the valid characters from i on, each by the table of lead bytes, or in a run with the one before it.
fn table_end(s: &[u8], i: usize) -> usize
    requires { i ≤ length s.now }
    ensures { Ends s.now i result }
{
    let mut j = i;
    while j < s.len() {
        let Some(lead) = LEADS[usize::from(s[j])] else {
            return j;
        };
        if !follows(&s[j + 1..], lead) {
            return j;
        }
        j = same_run(s, j + 1 + usize::from(lead.followers), lead);
    }
    j
}

// The end of the valid characters from i on: quick runs as far as they go, then the table.
fn valid_end(s: &[u8], i: usize) -> usize
    requires { i ≤ length s.now }
    ensures { Ends s.now i result }
{
    let mut j = i;
    while j < s.len() {
        let k = quick_run(s, j);
        if k == j {
            return table_end(s, j);
        }
        j = k;
    }
    j
}

// The length of the longest prefix that is UTF-8.
pub fn utf8_prefix(s: &[u8]) -> usize
    ensures { result ≡ valid_prefix s.now }
{
    let i = ascii_run(s, 0);
    if i == s.len() {
        return i;
    }
    valid_end(s, i)
}

// Whether all is UTF-8.
pub fn is_utf8(s: &[u8]) -> bool
    ensures { result ≡ utf8 s.now }
{
    utf8_prefix(s) == s.len()
}
