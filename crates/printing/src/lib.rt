// Text of answers, as far as a lent slice has room: bytes, words, numbers in decimal and hexadecimal, and the listings of records and of ranges.
// A page is the slice and the position at which the next text is stored. What finds no room is left out, and no method can fail: so they print numbers
// and listings themselves, since `write!` may fail as far as its contract says. Text whose form no contract states goes onto a page by `write!`.
#![tactic(auto)]

ghost use Rattle.std.specs.Prelude.{◌≡◌, [], ◌∷◌, ◌*◌, ◌<◌, take};
ghost use Rattle.spec.specs.Told.{read_count};
ghost use Rattle.printing.specs.Text.{digits_of, decimal, glyph, hexadecimal, rows, verdict, lines, listing};
ghost use Rattle.printing.specs.Page.{Adds, ending_of};

mod watched;

use spec::answers::Stopped;
use spec::columns;
use std::fmt;

// What is added to a digit of hexadecimal above nine.
const LETTERS: u8 = b'a' - 10;

// A slice that is lent for text, and the position at which the next text is stored.
#[derive(Drop)]
pub struct Page<'a> {
    pub out: &'a mut [u8],
    pub at: usize,
}

// How rows of numbers are laid out: their columns end with `last`; `first` stands before the first row, `between` before each other, `within` before the other
// numbers of a row.
#[derive(Clone, Copy, Debug, PartialEq, Eq)]
pub struct Layout {
    pub last: usize,
    pub first: u8,
    pub between: u8,
    pub within: u8,
}

// How a reading ended, as it is printed: the refusal's number, 0 for none; how many rows there are; the place of the refusal. It has numbers, as a listing may be
// asked for with any.
#[derive(Clone, Copy, Debug, PartialEq, Eq)]
pub struct Ending {
    pub number: u32,
    pub count: usize,
    pub place: usize,
}

impl From<Result<usize, Stopped>> for Ending {
    ghost from_gives = { λ read ending. ending ≡ ending_of read };

    fn from(read: Result<usize, Stopped>) -> Ending {
        match read {
            Ok(count) => Ending {
                number: 0,
                count,
                place: 0,
            },
            Err(stopped) => Ending {
                number: stopped.refusal.number(),
                count: stopped.count,
                place: stopped.place,
            },
        }
    }
}

impl<'a> Page<'a> {
    // An empty page.
    pub fn new(out: &'a mut [u8]) -> Page<'a>
        ensures same_reference { result.out.ghost_name ≡ out.entry.ghost_name }
        ensures front { result.at ≡ 0 }
        ensures same { result.out.now ≡ out.old }
    {
        Page { out, at: 0 }
    }

    // The text: what stands in front of the position.
    pub fn written(&self) -> &[u8]
        ensures { result.now ≡ take self.now.at self.now.out.now }
    {
        if self.at < self.out.len() {
            &self.out[..self.at]
        } else {
            self.out
        }
    }

    // One byte.
    pub fn put_byte(&mut self, b: u8)
        ensures { Adds self.old (b ∷ []) self.new }
    {
        if self.at < self.out.len() {
            self.out[self.at] = b;
            self.at += 1;
        }
    }

    // A text.
    pub fn put_text(&mut self, text: &[u8])
        ensures { Adds self.old text.now self.new }
    {
        for b in text {
            self.put_byte(*b);
        }
    }

    // The last digits of a number in decimal, `left` at the most, and none in front of the first that is not 0.
    fn put_digits(&mut self, n: u64, left: u32)
        ensures { Adds self.old (digits_of left n) self.new }
    {
        if left == 0 {
            return;
        }
        if n < 10 {
            self.put_byte(b'0' + n as u8);
            return;
        }
        self.put_digits(n / 10, left - 1);
        self.put_byte(b'0' + (n % 10) as u8);
    }

    // A number in decimal: no number of 64 bits has more than twenty digits. Many have one, and need no call.
    pub fn put_decimal(&mut self, n: u64)
        ensures { Adds self.old (decimal n) self.new }
    {
        if n < 10 {
            self.put_byte(b'0' + n as u8);
            return;
        }
        self.put_digits(n, 20);
    }

    // Bytes in hexadecimal, two digits each.
    pub fn put_hex(&mut self, bytes: &[u8])
        ensures { Adds self.old (hexadecimal bytes.now) self.new }
    {
        for b in bytes {
            self.put_byte(glyph(*b / 16));
            self.put_byte(glyph(*b % 16));
        }
    }

    // Rows of numbers.
    pub fn put_rows(&mut self, list: &[u64], layout: Layout)
        ensures { Adds self.old (rows layout.last layout.first layout.between layout.within 0 list.now) self.new }
    {
        let mut before = layout.first;
        let mut column: usize = 0;
        for n in list {
            self.put_byte(before);
            self.put_decimal(*n);
            if column < layout.last {
                column += 1;
                before = layout.within;
            } else {
                column = 0;
                before = layout.between;
            }
        }
    }

    // How a reading ended: `ok` and how many rows there are, or `refused`, the number, `at` and the place.
    fn put_verdict(&mut self, ending: Ending)
        ensures { Adds self.old (verdict ending.number ending.count ending.place) self.new }
    {
        if ending.number == 0 {
            self.put_text(b"ok ");
            self.put_decimal(ending.count as u64);
        } else {
            self.put_text(b"refused ");
            self.put_decimal(u64::from(ending.number));
            self.put_text(b" at ");
            self.put_decimal(ending.place as u64);
        }
    }

    // What was read: its rows, a line each, and how the reading ended. `line_end` stands before each line, as the first may follow a header.
    pub fn put_lines(&mut self, ending: Ending, list: &[u64], last: usize, line_end: u8)
        ensures { Adds self.old (lines ending.number ending.count ending.place list.now last line_end) self.new }
    {
        let layout = Layout {
            last,
            first: line_end,
            between: line_end,
            within: b' ',
        };
        self.put_rows(list, layout);
        self.put_byte(line_end);
        self.put_verdict(ending);
    }

    // The listing of records: a header, the records that stand in the room, a line each, and how the reading ended. `line_end` stands between lines.
    pub fn put_listing(&mut self, ending: Ending, list: &[u64], line_end: u8)
        ensures { Adds self.old (listing ending.number ending.count ending.place list.now line_end) self.new }
    {
        self.put_text(b"depth number kind value start end tag");
        self.put_lines(ending, list, columns::TAG, line_end);
    }
}

// What `write!` stores. It never fails: here too what finds no room is left out.
impl fmt::Write for Page<'_> {
    ghost write_str_gives = { Adds };

    fn write_str(&mut self, text: &str) -> fmt::Result {
        self.put_text(text.as_bytes());
        Ok(())
    }
}

// What a reading left at the front of a room: its records or ranges, `stride` numbers each.
pub fn rows_read<'a>(read: Result<usize, Stopped>, room: &'a [u64], stride: usize) -> &'a [u64]
    ensures { result.now ≡ take (read_count read * stride) room.now }
{
    let count = read.unwrap_or_else(|stopped| stopped.count);
    let end = count.saturating_mul(stride).min(room.len());
    &room[..end]
}

// A digit of hexadecimal, in lower case.
fn glyph(digit: u8) -> u8
    requires { digit < 16 }
    ensures { result ≡ glyph digit }
{
    if digit < 10 {
        b'0' + digit
    } else {
        LETTERS + digit
    }
}
