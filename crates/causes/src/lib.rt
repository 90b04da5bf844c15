// Why a write was refused: it is run byte by byte, and what its bytes change is noted. Every
// function answers every argument; a contract is an equation with a definition of crate
// `causerules`.
#![tactic(auto)]

pub mod notes;
pub mod reason;
pub mod text;
pub mod track;
