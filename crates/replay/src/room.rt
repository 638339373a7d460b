// What lines are answered in: arrays of `main`, lent to one line after the other. They are as large as any line needs, and nothing is allocated, so that no line
// can run out of memory.
use crate::writings;

// The bytes of a word: the longest line has fewer.
const BYTES: usize = 32768;

// The numbers of a list or of the entries of a schema: the longest line has fewer. The room of a reading, at most 4,096 records and the numbers that are watched
// after them, stands in `list` too.
const NUMBERS: usize = 32768;

// The output of a writing, and what is watched after it.
const OUTPUT: usize = writings::MOST + writings::WATCHED;

// An array for each part of a line.
#[derive(Drop)]
pub struct Room {
    pub bytes: [u8; BYTES],
    pub list: [u64; NUMBERS],
    pub numbers: [u32; NUMBERS],
    pub output: [u8; OUTPUT],
}

impl Room {
    pub fn new() -> Room {
        Room {
            bytes: [0; BYTES],
            list: [0; NUMBERS],
            numbers: [0; NUMBERS],
            output: [0; OUTPUT],
        }
    }
}
