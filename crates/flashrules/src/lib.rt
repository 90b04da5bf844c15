// The refusals of all layers, and the data flash on paper: layouts of classes, where their blocks
// lie, and what a store leaves of an image. Here are the types, and the number of a refusal; the
// rules over them are definitions (specs/), with what is proved of the rules alone (proofs/).
// Crates `layout` and `dataflash` are the code. Document 01, "Layout and image".
#![tactic(auto)]

pub mod error;
pub mod layout;
pub mod lookup;
