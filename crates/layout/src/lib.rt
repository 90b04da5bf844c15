// Layouts: which are valid, and where a class or a block lies in an image. Every function answers
// every argument; a contract is an equation with a definition of crate `flashrules`.
#![tactic(auto)]

pub mod entry;
pub mod lookup;
pub mod same;
pub mod valid;
