// The gauge as a device on paper: its state, its registers and its answers. The rules over them are
// definitions (specs/), and what is proved of the rules alone, noninterference above all, stands
// here too (proofs/). The code that equals these rules is in crates `gaugestate`, `controlword`,
// `blocktransfer`, `blockcommit`, `supply` and `gauge`.
#![tactic(auto)]

pub mod answer;
pub mod keys;
pub mod register;
pub mod state;
