// Why a write was refused, on paper: the history of a script, byte by byte, and the line that a
// refusal goes back to. Here are the types; the rules over them are definitions and claims
// (specs/), proved of the rules alone (proofs/). Crate `causes` is the code. Document 02, C-13.
#![tactic(auto)]

pub mod notes;
pub mod reason;
