// Layouts: which classes an image has, in which order and how long. A layout is plain numbers, so a
// broken one can be written down and passed to every function.
// Stays: C passes it by value, so it is two arrays and a count; and a broken one must be there to
// be refused with 10. It travels beside an image and not with it: C lends the image apart, and a
// struct that holds a `&mut` has no ghost field to say that the two go together.
pub const MAX_CLASSES: usize = 32;

pub const MAX_CLASS_LENGTH: usize = 512;

pub const MAX_IMAGE_LENGTH: usize = 4096;

// Manufacturer info: the class of the manufacturer info blocks A, B and C.
pub const INFO_CLASS: u8 = 58;

pub const INFO_LENGTH: usize = 96;

// The class that begins with the unseal key and the full access key.
pub const KEY_CLASS: u8 = 112;

pub const MIN_KEY_LENGTH: usize = 28;

// Identifiers and lengths of the classes, in the order of their bytes. Only the first `count`
// entries mean anything.
#[repr(C)]
#[derive(Clone, Copy)]
pub struct Layout {
    pub count: usize,
    pub ids: [u8; MAX_CLASSES],
    pub lengths: [u16; MAX_CLASSES],
}
