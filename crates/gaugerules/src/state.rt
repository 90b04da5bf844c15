// The state of a gauge (document 01: the gauge record). Numbers only, so that a host program can
// hold it and any record whatever can be passed; whether one is valid is a test.
// Stays: modes, boot, control, pending and loaded are no enums and no Options. A record that holds
// none of their values must be there to be refused with 15 (`gaugestate::valid`, `InvalidGauge`).
use flashrules::lookup::BLOCK_SIZE;

// Modes.
pub const SEALED: u8 = 0;

pub const UNSEALED: u8 = 1;

pub const FULL_ACCESS: u8 = 2;

// The mode after a reset (document 01: home).
pub const BOOT_SEALED: u8 = 0;

pub const BOOT_OPEN: u8 = 1;

// No key word is pending. A word has 16 bits.
pub const NO_WORD: u32 = 0x10000;

// No block is loaded. A loaded block is 256 x class + block.
pub const NO_BLOCK: u32 = 0x10000;

// What BlockDataControl() selects: the data flash, or the manufacturer info blocks.
pub const CONTROL_FLASH: u8 = 0;

pub const CONTROL_INFO: u8 = 1;

// The manufacturer info blocks A, B and C: how many there are, and the number of A.
pub const INFO_BLOCKS: u8 = 3;

pub const BLOCK_A: u8 = 0;

// The supply in millivolts: at power-on, at most, and the least that a commit takes.
pub const POWER_ON_SUPPLY: u16 = 3600;

pub const MAX_SUPPLY: u16 = 4500;

pub const MIN_COMMIT_SUPPLY: u16 = 2700;

// A block of a class, as the rules go by it: a view of the number that a gauge holds of what is in
// its window.
#[derive(Clone, Copy, Debug, PartialEq, Eq)]
pub struct BlockId {
    pub class: u8,
    pub block: u8,
}

#[repr(C)]
#[derive(Clone, Copy)]
pub struct Gauge {
    pub mode: u8,
    pub boot: u8,
    // The low byte of the next control word.
    pub low: u8,
    // The key word that waits for a second one, or NO_WORD.
    pub pending: u32,
    // What Control() reads.
    pub result: u16,
    // BlockDataControl().
    pub control: u8,
    // DataFlashClass().
    pub class: u8,
    // DataFlashBlock().
    pub block: u8,
    // The block in the window, or NO_BLOCK.
    pub loaded: u32,
    // The supply in millivolts.
    pub supply: u16,
    // BlockData().
    pub window: [u8; BLOCK_SIZE],
}
