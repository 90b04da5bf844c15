// What differs between two images, on paper: the runs, their text and the call that makes it. Here
// is a number; the rest are definitions and claims (specs/), proved of the rules alone (proofs/).
// Crate `delta` is the code. Document 02, C-11.
#![tactic(auto)]

// No list of runs between two images has a longer text: a run of one byte costs 11 characters, the
// next begins two bytes on at the soonest, and each of 32 classes may begin with one.
pub const MAX_RUNS_TEXT: usize = 22704;
