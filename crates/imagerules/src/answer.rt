// What a read of a file answers.
use flashrules::layout::Layout;

// An accepted file: its layout, and how many bytes of the buffer are its image. A refused one
// answers the refusal alone, and a write of a file how many bytes of the buffer are the text.
#[derive(Clone, Copy)]
pub struct FileRead {
    pub layout: Layout,
    pub length: usize,
}
