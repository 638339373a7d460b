// The library's calls under the names that C calls: each calls the function of the same name of the crate `calf`, and states its clauses again.
// include/calf.h has the prototypes.
#![tactic(auto)]

pub mod leaves;
pub mod pulling;
pub mod reading;
pub mod segments;
pub mod writing;
