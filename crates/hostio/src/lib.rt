// What the programs share: files read by their names, text printed, and reasons on standard error.
// No contract can say what a file holds or what became of a text that was printed; what can be said
// is there.
#![tactic(auto)]

pub mod image_file;
pub mod input;
pub mod output;
