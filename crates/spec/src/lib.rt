// The definitions are in specs/ and the laws about them in proofs/; the only code is names for the numbers of the rules, why a call refuses and
// what it then answers, what a schema is made of, and how a message is read.
#![tactic(auto)]

pub mod answers;
pub mod columns;
pub mod kinds;
pub mod kinds32;
pub mod limits;
pub mod refusals;
pub mod wire_types;

// A schema's entry: the field `number` of the message type `owner` has this kind; `child` is the type of a message's fields, else 0.
#[derive(Clone, Copy, Debug, PartialEq, Eq)]
pub struct Entry {
    pub owner: u32,
    pub number: u32,
    pub kind: u32,
    pub repeated: bool,
    pub child: u32,
}

// How a message is read, where the caller chooses: with `dropped`, what is dropped, a skipped group or an empty packed field, gives a record of the kind
// `kinds::DROPPED_SPAN` with its whole span.
#[derive(Clone, Copy, Debug, PartialEq, Eq)]
pub struct Mode {
    pub dropped: bool,
}
