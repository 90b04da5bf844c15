// The gauge's transactions: write and read. Every function answers every argument; a contract is an
// equation with a definition of crate `gaugerules`, where the rules are to be read. What a byte
// does at a register is in crates `controlword`, `blocktransfer` and `blockcommit`.
#![tactic(auto)]

pub mod read;
pub mod register;
pub mod write;
