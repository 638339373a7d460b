// The text of an answer, and of what the call left in a buffer that was made of one pattern before it. What is not a part of the answer must have its pattern
// still: else ` touched` is at the end of the text.
ghost use Rattle.std.specs.Prelude.{◌≡◌, not};
ghost use Rattle.std.specs.List.{list_any};
ghost use Rattle.spec.specs.Told.{read_number, read_count, read_place, written_number, written_size, written_index};
ghost use Rattle.printing.specs.Page.{Adds};
ghost use Rattle.printing.specs.Watched.{three, size_or_refusal, touched_if, rows_or_none, bytes_or_none, reading_text, writing_text};

use crate::{Ending, Layout, Page, rows_read};
use spec::answers::{Stopped, Unwritten};
use spec::refusals::Refusal;

// Whether any of these is not the pattern. No element ends the loop, as `any` would: so the compiler compares many at a time, and nearly always all are the pattern.
fn is_changed<T: PartialEq>(list: &[T], pattern: &T) -> bool
    ensures { result ≡ list_any (λ x. not (T.eq x pattern.now)) list.now }
{
    let mut changed = false;
    for x in list {
        changed |= *x != *pattern;
    }
    changed
}

impl Page<'_> {
    // Three numbers.
    fn put_three(&mut self, a: u64, b: u64, c: u64)
        ensures { Adds self.old (three a b c) self.new }
    {
        self.put_decimal(a);
        self.put_byte(b' ');
        self.put_decimal(b);
        self.put_byte(b' ');
        self.put_decimal(c);
    }

    // The numbers of a reading: the refusal's, 0 for none; how many records or ranges are in the room; the place.
    fn put_read_numbers(&mut self, read: Result<usize, Stopped>)
        ensures { Adds self.old (three (read_number read) (read_count read) (read_place read)) self.new }
    {
        let ending = Ending::from(read);
        let number = u64::from(ending.number);
        self.put_three(number, ending.count as u64, ending.place as u64);
    }

    // The numbers of a writing: the refusal's, 0 for none; the size; the index.
    pub fn put_written_numbers(&mut self, wrote: Result<usize, Unwritten>)
        ensures { Adds self.old (three (written_number wrote) (written_size wrote) (written_index wrote)) self.new }
    {
        match wrote {
            Ok(size) => self.put_three(0, size as u64, 0),
            Err(unwritten) => {
                let number = u64::from(unwritten.refusal.number());
                self.put_three(number, unwritten.size as u64, unwritten.index as u64);
            }
        }
    }

    // A size, or `refused` and the number.
    pub fn put_sized(&mut self, sized: Result<u64, Refusal>)
        ensures { Adds self.old (size_or_refusal sized) self.new }
    {
        match sized {
            Ok(size) => self.put_decimal(size),
            Err(refusal) => {
                self.put_text(b"refused ");
                self.put_decimal(u64::from(refusal.number()));
            }
        }
    }

    fn put_touched(&mut self, touched: bool)
        ensures { Adds self.old (touched_if touched) self.new }
    {
        if touched {
            self.put_text(b" touched");
        }
    }

    // Rows, or `-` where there are none.
    fn put_rows_or_none(&mut self, rows: &[u64], layout: Layout)
        ensures { Adds self.old (rows_or_none layout rows.now) self.new }
    {
        if rows.is_empty() {
            self.put_text(b" -");
        } else {
            self.put_rows(rows, layout);
        }
    }

    // A space and bytes in hexadecimal, or `-` where there are none.
    fn put_bytes_or_none(&mut self, bytes: &[u8])
        ensures { Adds self.old (bytes_or_none bytes.now) self.new }
    {
        if bytes.is_empty() {
            self.put_text(b" -");
        } else {
            self.put_byte(b' ');
            self.put_hex(bytes);
        }
    }

    // The numbers of a reading, what stands in the room, `stride` numbers a row, and whether anything after that has changed.
    pub fn put_reading(
        &mut self,
        read: Result<usize, Stopped>,
        room: &[u64],
        stride: usize,
        layout: Layout,
        pattern: u64,
    )
        ensures { Adds self.old (reading_text read stride layout pattern room.now) self.new }
    {
        self.put_read_numbers(read);
        let rows = rows_read(read, room, stride);
        self.put_rows_or_none(rows, layout);
        self.put_touched(is_changed(&room[rows.len()..], &pattern));
    }

    // The numbers of a writing, the bytes that were written, and whether any after them has changed.
    pub fn put_writing(&mut self, wrote: Result<usize, Unwritten>, output: &[u8], pattern: u8)
        ensures { Adds self.old (writing_text wrote pattern output.now) self.new }
    {
        self.put_written_numbers(wrote);
        let end = wrote.unwrap_or(0).min(output.len());
        self.put_bytes_or_none(&output[..end]);
        self.put_touched(is_changed(&output[end..], &pattern));
    }
}
