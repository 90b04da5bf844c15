// The number of a kind is how many bytes a value has, and this besides if it is in two's
// complement.
pub const SIGNED_BIT: u8 = 0x80;

// No kind of a parameter has more bytes.
pub const MAX_WIDTH: usize = 4;
