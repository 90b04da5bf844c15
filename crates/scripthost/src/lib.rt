// What runs script.hex on a gauge with the image of image.hex, both in the current folder, for the
// programs `replay` and `why`. Both files are parsed before anything is printed, so the script is
// read twice, each time in chunks: any length of it takes the same memory. What is printed is
// proved of crate `scriptrunner`, whose calls do all the work; here they are fed. Crate `hostio`
// reads and prints.
#![tactic(auto)]

mod diagnose;
pub mod files;
mod pass;
mod script_file;
