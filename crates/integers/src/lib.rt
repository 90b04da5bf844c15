// Integers in bytes, by the kinds of a parameter: unsigned or in two's complement, of 1, 2 or 4
// bytes, most significant byte first. A contract is an equation with a definition of crate
// `parameterrules`, where the rules are to be read; specs/Kind.antt has the numbers of the kinds.
#![tactic(auto)]

pub mod bytes;
pub mod kind;
