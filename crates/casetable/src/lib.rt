// Document 01's bench cases as one table, and its session as texts: claims about the rules
// (specs/), computed (proofs/). No code: program `cases` runs the cases, and program `replay` the
// session.
#![tactic(auto)]
