// The pull reader over a slice: coded_input_stream/mod.rs of rust-protobuf.
#![tactic(auto)]

pub mod bytes;
pub mod reader;
pub mod step;
pub mod value;
pub mod wide;
