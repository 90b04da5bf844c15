// What a lookup of a class or a block answers.
use crate::error::Error;

// A block has so many bytes, the last one of a class perhaps fewer.
pub const BLOCK_SIZE: usize = 32;

// Where the bytes of a class or a block lie in the image.
#[derive(Clone, Copy, Debug, PartialEq, Eq)]
pub struct Place {
    pub start: usize,
    pub len: usize,
}

pub type Lookup = Result<Place, Error>;
