// Numbers of the text of an image.

// No text has more lines: 4096 bytes make 128 full blocks, and each of 32 classes may have one that
// is not full.
pub const MAX_LINES: usize = 160;

// None is longer: two digits for each of 4096 bytes, and seven characters more for each of 160
// lines.
pub const MAX_TEXT: usize = 9312;
