// The one place where register numbers are decoded.
ghost use Rattle.std.specs.Prelude.{◌≡◌};
ghost use Rattle.gaugerules.specs.Register.{register_of};

use gaugerules::register::{
    BLOCK_DATA, BLOCK_DATA_CHECKSUM, BLOCK_DATA_CONTROL, CONTROL_HIGH, CONTROL_LOW,
    DATA_FLASH_BLOCK, DATA_FLASH_CLASS, Register,
};

#[tactic(auto, unfolding(gaugerules::specs::Register::register_of))]
pub fn decode(register: usize) -> Register
    ensures { result ≡ register_of register }
{
    match register {
        CONTROL_LOW => Register::ControlLow,
        CONTROL_HIGH => Register::ControlHigh,
        DATA_FLASH_CLASS => Register::DataFlashClass,
        DATA_FLASH_BLOCK => Register::DataFlashBlock,
        BLOCK_DATA..BLOCK_DATA_CHECKSUM => Register::BlockData(register - BLOCK_DATA),
        BLOCK_DATA_CHECKSUM => Register::BlockDataChecksum,
        BLOCK_DATA_CONTROL => Register::BlockDataControl,
        _ => Register::Other,
    }
}
