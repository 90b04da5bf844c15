// Typed parameters on paper: a row of numbers that says where a value stands in the data flash, in
// how many bytes, and between which ends it may be. Here are the types; the rules over them are
// definitions (specs/), with what is proved of the rules alone (proofs/). Crates `integers`,
// `parametercheck` and `parameters` are the code. Document 01, "The parameter desk".
#![tactic(auto)]

pub mod kind;
pub mod parameter;
