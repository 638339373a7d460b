// Why a call refuses. specs/Names has the numbers for the definitions, and docs/DEFINITIONS.md says what each means.
ghost use Rattle.std.specs.Prelude.{◌≡◌};
ghost use Rattle.spec.specs.Told.{number_of};

use std::error::Error;
use std::fmt;

// Each refusal has the number of its place here, from 1 on.
#[derive(Clone, Copy, Debug, PartialEq, Eq, Hash)]
pub enum Refusal {
    EndsEarly,
    BadVarint,
    BadTag,
    NoGroupOpen,
    OutOfRange,
    NotUtf8,
    TooDeep,
    NoRoom,
    InvalidSchema,
    InvalidList,
    TooLarge,
    OutputShort,
    BadMark,
    OtherVersion,
}

impl Refusal {
    // The number that C sees.
    pub fn number(self) -> u32
        ensures { result ≡ number_of self }
    {
        self as u32 + 1
    }
}

impl fmt::Display for Refusal {
    fn fmt<W: fmt::Write>(&self, f: &mut fmt::Formatter<W>) -> fmt::Result {
        f.write_str(match self {
            Refusal::EndsEarly => "the input or an enclosing length ends too soon",
            Refusal::BadVarint => "bad varint",
            Refusal::BadTag => "bad tag",
            Refusal::NoGroupOpen => "end-group tag with no group open",
            Refusal::OutOfRange => "int32 or enum out of range",
            Refusal::NotUtf8 => "string not UTF-8",
            Refusal::TooDeep => "too deep",
            Refusal::NoRoom => "more records than room",
            Refusal::InvalidSchema => "bad schema",
            Refusal::InvalidList => "bad list",
            Refusal::TooLarge => "above the size limit",
            Refusal::OutputShort => "output too short",
            Refusal::BadMark => "no segment",
            Refusal::OtherVersion => "a segment of another version",
        })
    }
}

impl Error for Refusal {}
