// The keys, which the data flash holds: the block of their class, where they begin in it, and how
// long they are.
pub const KEY_BLOCK: u8 = 0;

pub const UNSEAL_KEY: usize = 0;

pub const FULL_ACCESS_KEY: usize = 4;

pub const KEY_LENGTH: usize = 4;

// Both keys end here.
pub const KEYS_END: usize = 8;
