// The lines of a script are run, one at a time or all whole lines of a text. Every function answers
// every argument; a contract is an equation with a definition of crate `scriptrules`.
#![tactic(auto)]

pub mod run;
