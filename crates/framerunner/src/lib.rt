// One frame is run in a session, over its image, and what it puts out goes into a lent buffer: a
// reply, or a line where a write or a supply is refused. Every function answers every argument; a
// contract is an equation with a definition of crate `scriptrules`.
#![tactic(auto)]

mod explain;
pub mod frame;
mod reply;
pub mod report;
pub mod session;
