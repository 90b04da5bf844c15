// The state of a gauge: power-on, which states are valid, what the rules ask of a state or change
// in it, and the refusals that every call begins with. A contract is an equation with a definition
// of crate `gaugerules`, where the rules are to be read.
#![tactic(auto)]

pub mod entry;
pub mod state;
pub mod valid;
