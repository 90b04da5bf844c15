// The registers that take part in block transfer, by document 000's names. Every other one reads 0
// and takes no write.
pub const CONTROL_LOW: usize = 0x00;

pub const CONTROL_HIGH: usize = 0x01;

pub const DATA_FLASH_CLASS: usize = 0x3E;

pub const DATA_FLASH_BLOCK: usize = 0x3F;

pub const BLOCK_DATA: usize = 0x40;

pub const BLOCK_DATA_CHECKSUM: usize = 0x60;

pub const BLOCK_DATA_CONTROL: usize = 0x61;

// How many registers there are.
pub const REGISTERS: usize = 128;

// What a register is.
#[derive(Clone, Copy)]
pub enum Register {
    ControlLow,
    ControlHigh,
    DataFlashClass,
    DataFlashBlock,
    BlockData(usize),
    BlockDataChecksum,
    BlockDataControl,
    Other,
}
