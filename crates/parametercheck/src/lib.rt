// Which parameters are refused, and which values are in range. Every function answers every
// argument; a contract is an equation with a definition of crate `parameterrules`, where the rules
// are to be read.
#![tactic(auto)]

pub mod error;
pub mod row;
pub mod valid;
