// The image file on paper: a layout and its image as lines of upper-case hexadecimal, a line a
// block. Here are the answers and the numbers; the text, when a text is accepted and the round trip
// are definitions and claims (specs/), proved of the rules alone (proofs/). Crates `imagewriter`
// and `imagereader` are the code. Document 01, "Image file".
#![tactic(auto)]

pub mod answer;
pub mod text;
