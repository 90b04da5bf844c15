// Frames, and the state of the parser, which goes in and comes back by value.
// A frame's first byte.
// Stays: bytes of a text, of which any may come; a frame that was read is a `Frame`.
pub const READ: u8 = 0;

pub const WRITE: u8 = 1;

pub const SUPPLY: u8 = 2;

// The bytes of a frame at most, with its kind and its register.
pub const MAX_FRAME: usize = 257;

// Of the line that is not ended yet: how many digits it has, and the byte that its first two make.
#[derive(Clone, Copy, Debug, PartialEq, Eq)]
pub struct Line {
    pub count: usize,
    pub kind: u8,
}

// An Err where a rule is broken. What it holds of a line means nothing, but is told.
pub type Parser = Result<Line, Line>;
