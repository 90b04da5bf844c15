// The state of a gauge: power-on, and what the rules ask of a state or change in it.
ghost use Rattle.std.specs.Prelude.{◌≡◌};
ghost use Rattle.gaugerules.specs.State.{power_on, restart, general_access, loaded_of, is_loaded, packed, unload, load};

use flashrules::lookup::BLOCK_SIZE;
use gaugerules::state::{
    BOOT_OPEN, BOOT_SEALED, BlockId, CONTROL_FLASH, CONTROL_INFO, FULL_ACCESS, Gauge, NO_BLOCK,
    NO_WORD, POWER_ON_SUPPLY, SEALED,
};

// A gauge just powered on: in full access for BOOT_OPEN, sealed for any other number.
pub fn power_on(boot: u8) -> Gauge
    ensures { result ≡ power_on boot }
{
    let (mode, boot) = match boot {
        BOOT_OPEN => (FULL_ACCESS, BOOT_OPEN),
        _ => (SEALED, BOOT_SEALED),
    };
    Gauge {
        mode,
        boot,
        low: 0,
        pending: NO_WORD,
        result: 0,
        control: CONTROL_INFO,
        class: 0,
        block: 0,
        loaded: NO_BLOCK,
        supply: POWER_ON_SUPPLY,
        window: [0u8; BLOCK_SIZE],
    }
}

// What sealing and reset leave of a gauge: power-on, with the supply that it has.
pub fn restart(gauge: Gauge, boot: u8) -> Gauge
    ensures { result ≡ restart gauge boot }
{
    Gauge {
        supply: gauge.supply,
        ..power_on(boot)
    }
}

// Not sealed, and the data flash selected.
pub fn general_access(gauge: Gauge) -> bool
    ensures { result ≡ general_access gauge }
{
    gauge.mode != SEALED && gauge.control == CONTROL_FLASH
}

// What is loaded, if anything is.
#[tactic(auto, unfolding(gaugerules::specs::State::loaded_of))]
pub fn loaded(gauge: Gauge) -> Option<BlockId>
    ensures { result ≡ loaded_of gauge.loaded }
{
    if gauge.loaded == NO_BLOCK {
        return None;
    }
    let [block, class, _, _] = gauge.loaded.to_le_bytes();
    Some(BlockId { class, block })
}

// Whether this block of this class is loaded.
pub fn is_loaded(gauge: Gauge, class: u8, block: u8) -> bool
    ensures { result ≡ is_loaded gauge class block }
{
    loaded(gauge) == Some(BlockId { class, block })
}

// A block of a class as one number.
fn packed(class: u8, block: u8) -> u32
    ensures { result ≡ packed class block }
{
    u32::from(u16::from_be_bytes([class, block]))
}

// Nothing is loaded any more.
pub fn unload(gauge: Gauge) -> Gauge
    ensures { result ≡ unload gauge }
{
    Gauge {
        block: 0u8,
        loaded: NO_BLOCK,
        window: [0; BLOCK_SIZE],
        ..gauge
    }
}

// Block `block` of a class stands in the window, chosen by this byte.
pub fn load(gauge: Gauge, byte: u8, class: u8, block: u8, window: [u8; BLOCK_SIZE]) -> Gauge
    ensures { result ≡ load gauge byte class block window }
{
    Gauge {
        block: byte,
        loaded: packed(class, block),
        window,
        ..gauge
    }
}
