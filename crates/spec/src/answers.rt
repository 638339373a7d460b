// What the calls answer where they refuse. Where they do not, a reading answers how many records or ranges stand in the room, and a writing how many bytes were written.
ghost use Rattle.std.specs.Prelude.{◌≡◌};
ghost use Rattle.spec.specs.Told.{unwritten_of};

use crate::refusals::Refusal;

// A reading that was refused: how many records or ranges, those before the fault, stand in the room, and the place of the fault.
#[derive(Clone, Copy, Debug, PartialEq, Eq)]
pub struct Stopped {
    pub refusal: Refusal,
    pub count: usize,
    pub place: usize,
}

// A writing that was refused: the size that is needed where the output is too short, else 0; the index of the bad record, range or entry.
#[derive(Clone, Copy, Debug, PartialEq, Eq)]
pub struct Unwritten {
    pub refusal: Refusal,
    pub size: usize,
    pub index: usize,
}

// A list with a fault: the index of its record, or of the schema's bad entry.
#[derive(Clone, Copy, Debug, PartialEq, Eq)]
pub struct Fault {
    pub refusal: Refusal,
    pub index: usize,
}

// A list with a fault is not written, and has no size.
impl From<Fault> for Unwritten {
    ghost from_gives = { λ fault unwritten. unwritten ≡ unwritten_of fault };

    fn from(fault: Fault) -> Unwritten {
        Unwritten {
            refusal: fault.refusal,
            size: 0,
            index: fault.index,
        }
    }
}
