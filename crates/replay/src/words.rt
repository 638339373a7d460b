// The words of a line, with one space between each and the next, taken one after the other. Bytes and numbers are stored in arrays that are lent for them.
use crate::fail::Fail;
use segment::RANGE_STRIDE;
use spec::columns::{ENTRY_STRIDE, STRIDE};
use std::str::{FromStr, Split};

// A schema: its type count, and the numbers of its entries.
#[derive(Drop)]
pub struct Schema<'b> {
    pub types: u32,
    pub numbers: &'b mut [u32],
}

// The words that are left.
#[derive(Drop)]
pub struct Words<'a> {
    left: Split<'a, char>,
}

// A number in decimal, of digits alone.
pub fn number<T: FromStr>(text: &str) -> Result<T, Fail>
where
    T::Err: Drop,
{
    if text.starts_with('+') {
        return Err(Fail::BadLine);
    }
    text.parse().map_err(|_| Fail::BadLine)
}

// A number with one digit more.
fn with_digit(number: u64, digit: u8) -> Option<u64> {
    number.checked_mul(10)?.checked_add(u64::from(digit))
}

// Stores a number behind so many others.
fn put<T: TryFrom<u64>>(number: Option<u64>, room: &mut [T], count: &mut usize) -> Result<(), Fail>
where
    T: Drop,
    T::Error: Drop,
{
    let number = number.ok_or(Fail::BadLine)?;
    let place = room.get_mut(*count).ok_or(Fail::BadLine)?;
    *place = T::try_from(number).map_err(|_| Fail::BadLine)?;
    *count += 1;
    Ok(())
}

// Stores rows of so many numbers each, `within` between the numbers of a row and `between` after each row but the last: how many numbers there are. One pass over
// the bytes, as the lists of the longest lines are most of what a run costs.
fn put_rows<T: TryFrom<u64>>(
    text: &str,
    stride: usize,
    within: u8,
    between: u8,
    room: &mut [T],
) -> Result<usize, Fail>
where
    T: Drop,
    T::Error: Drop,
{
    let mut count = 0;
    let mut column = 1;
    let mut number = None;
    for b in text.bytes() {
        if b.is_ascii_digit() {
            let longer = with_digit(number.unwrap_or(0), b - b'0').ok_or(Fail::BadLine)?;
            number = Some(longer);
        } else {
            put(number, room, &mut count)?;
            number = None;
            let separator = if column < stride {
                column += 1;
                within
            } else {
                column = 1;
                between
            };
            if b != separator {
                return Err(Fail::BadLine);
            }
        }
    }
    if column != stride {
        return Err(Fail::BadLine);
    }
    put(number, room, &mut count)?;
    Ok(count)
}

// The numbers of a list, in the room that is lent for them; `-` for none.
fn rows<'b, T: TryFrom<u64>>(
    text: &str,
    stride: usize,
    within: u8,
    between: u8,
    room: &'b mut [T],
) -> Result<&'b mut [T], Fail>
where
    T: Drop,
    T::Error: Drop,
{
    let count = if text == "-" {
        0
    } else {
        put_rows(text, stride, within, between, room)?
    };
    room.get_mut(..count).ok_or(Fail::BadLine)
}

impl<'a> Words<'a> {
    pub fn of(line: &'a str) -> Words<'a> {
        Words {
            left: line.split(' '),
        }
    }

    pub fn word(&mut self) -> Result<&'a str, Fail> {
        self.left.next().ok_or(Fail::BadLine)
    }

    // That no word is left.
    pub fn end(&mut self) -> Result<(), Fail> {
        match self.left.next() {
            None => Ok(()),
            Some(_) => Err(Fail::BadLine),
        }
    }

    pub fn number<T: FromStr>(&mut self) -> Result<T, Fail>
    where
        T::Err: Drop,
    {
        number(self.word()?)
    }

    pub fn last_number<T: FromStr + Drop>(&mut self) -> Result<T, Fail>
    where
        T::Err: Drop,
    {
        let n = self.number()?;
        self.end()?;
        Ok(n)
    }

    // Bytes in hexadecimal, in lower case; `-` for none.
    pub fn bytes<'b>(&mut self, room: &'b mut [u8]) -> Result<&'b [u8], Fail> {
        let text = match self.word()? {
            "" => return Err(Fail::BadLine),
            "-" => "",
            text => text,
        };
        if text.bytes().any(|b| b.is_ascii_uppercase()) {
            return Err(Fail::BadLine);
        }
        let bytes = room.get_mut(..text.len() / 2).ok_or(Fail::BadLine)?;
        hex::decode_to_slice(text, bytes)?;
        Ok(bytes)
    }

    pub fn last_bytes<'b>(&mut self, room: &'b mut [u8]) -> Result<&'b [u8], Fail> {
        let bytes = self.bytes(room)?;
        self.end()?;
        Ok(bytes)
    }

    // `V,V,..`.
    pub fn values<'b>(&mut self, room: &'b mut [u64]) -> Result<&'b mut [u64], Fail> {
        rows(self.word()?, 1, b',', b',', room)
    }

    // `d,n,k,v,s,e,t;..`.
    pub fn records<'b>(&mut self, room: &'b mut [u64]) -> Result<&'b mut [u64], Fail> {
        rows(self.word()?, STRIDE, b',', b';', room)
    }

    // `START-END;..`.
    pub fn ranges<'b>(&mut self, room: &'b mut [u64]) -> Result<&'b mut [u64], Fail> {
        rows(self.word()?, RANGE_STRIDE, b'-', b';', room)
    }

    // `T|o,n,k,r,c;..`.
    pub fn schema<'b>(&mut self, room: &'b mut [u32]) -> Result<Schema<'b>, Fail> {
        let (types, entries) = self.word()?.split_once('|').ok_or(Fail::BadLine)?;
        Ok(Schema {
            types: number(types)?,
            numbers: rows(entries, ENTRY_STRIDE, b',', b';', room)?,
        })
    }
}
