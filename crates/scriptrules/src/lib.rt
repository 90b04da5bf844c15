// Scripts on paper: frames and their text, replies, and the whole outputs of `replay` and of `why`.
// Here are the types; the rules over them are definitions and claims (specs/), proved of the rules
// alone (proofs/). Crates `scriptparser`, `framerunner` and `scriptrunner` are the code. Document
// 01, "The replay program"; document 02, C-13.
#![tactic(auto)]

pub mod answer;
pub mod frame;
pub mod parser;
pub mod session;
