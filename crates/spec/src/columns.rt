// The numbers of a record, and of an entry, one after the other in lent numbers. specs/Names, specs/Record and specs/Schema have them for the definitions.

// A record; its depth is where the record begins.
pub const DEPTH: usize = 0;

pub const NUMBER: usize = 1;

pub const KIND: usize = 2;

pub const VALUE: usize = 3;

pub const START: usize = 4;

pub const END: usize = 5;

pub const TAG: usize = 6;

// How many numbers a record has.
pub const STRIDE: usize = 7;

// An entry of a schema; its owner is where the entry begins.
pub const ENTRY_OWNER: usize = 0;

pub const ENTRY_NUMBER: usize = 1;

pub const ENTRY_KIND: usize = 2;

pub const ENTRY_REPEATED: usize = 3;

pub const ENTRY_CHILD: usize = 4;

// How many numbers an entry has.
pub const ENTRY_STRIDE: usize = 5;
