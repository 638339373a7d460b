// Segment files: the letters WFM, a version of two bytes, and then each message after its length.
#![tactic(auto)]

pub mod reading;
pub mod writing;

pub use self::reading::read;
pub use self::writing::{size, write};

// What stands before the first length: the letters, and then the version of the segments that are read and written, its low byte first.
const FRONT: [u8; FRONT_SIZE] = *b"WFM\x01\x00";

const FRONT_SIZE: usize = 5;

// How many letters there are.
const MARK_SIZE: usize = 3;

// A range is two numbers: where a message starts, and where it ends.
pub const RANGE_END: usize = 1;

pub const RANGE_STRIDE: usize = 2;
