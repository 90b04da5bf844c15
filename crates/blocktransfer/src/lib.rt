// Block transfer: what a byte at 0x3E, 0x3F, 0x40 to 0x5F and 0x61 does. A refused byte leaves
// the gauge as it was. Crate `blockcommit` has 0x60.
// Stays: layout, image and gauge are parameters of their own, as `flashrules::layout` says.
#![tactic(auto)]

ghost use Rattle.std.specs.Prelude.{◌≡◌, ◌≤◌, length, set, Ok};
ghost use Rattle.flashrules.specs.Error.{number_of};
ghost use Rattle.flashrules.specs.Lookup.{block_size};
ghost use Rattle.flashrules.specs.Image.{as_loaded};
ghost use Rattle.gaugerules.specs.Answer.{byte_answer};
ghost use Rattle.gaugerules.specs.State.{with_window};
ghost use Rattle.gaugerules.specs.Transfer.{set_class, load_block, selects_info, select_block, is_protected, edit_error, edit, set_control};

use flashrules::error::Error;
use flashrules::layout::{INFO_CLASS, Layout};
use flashrules::lookup::{BLOCK_SIZE, Place};
use gaugerules::answer::ByteWritten;
use gaugerules::state::{BLOCK_A, CONTROL_INFO, Gauge, INFO_BLOCKS, SEALED};
use gaugestate::state::{general_access, is_loaded, load, loaded, unload};
use layout::lookup::find_block;

// An accepted byte, which leaves the image as it is.
pub fn accept(gauge: Gauge) -> Result<ByteWritten, Error>
    ensures { result ≡ Ok (record { changed = 0; gauge = gauge }) }
{
    Ok(ByteWritten { changed: 0, gauge })
}

// 0x3E.
#[tactic(auto, unfolding(gaugerules::specs::Transfer::set_class))]
pub fn set_class(gauge: Gauge, byte: u8) -> Result<ByteWritten, Error>
    ensures { byte_answer gauge result ≡ set_class gauge byte }
{
    if gauge.mode == SEALED {
        return Err(Error::SealedRegister);
    }
    accept(unload(Gauge {
        class: byte,
        ..gauge
    }))
}

// A block's bytes as loaded: zeros past the end of a short one.
#[tactic(auto, using(crate::proofs::TransferLaws::window_all))]
fn window_of(part: &[u8]) -> [u8; BLOCK_SIZE]
    requires { length part.now ≤ block_size }
    ensures { result ≡ as_loaded part.now }
{
    let mut window = [0u8; BLOCK_SIZE];
    window[..part.len()].copy_from_slice(part);
    window
}

// A block of a class.
#[tactic(auto, using(crate::proofs::TransferLaws::block_loading))]
fn load_block(
    layout: Layout,
    image: &[u8],
    gauge: Gauge,
    byte: u8,
    class: u8,
    block: u8,
) -> Result<ByteWritten, Error>
    ensures { byte_answer gauge result ≡ load_block layout image.now gauge byte class block }
{
    let Place { start, len } = find_block(layout, image.len(), class, block)?;
    let window = window_of(&image[start..start + len]);
    accept(load(gauge, byte, class, block, window))
}

// Whether a byte names a manufacturer info block: 1, 2, 3 for A, B, C.
fn selects_info(byte: u8) -> bool
    ensures { result ≡ selects_info byte }
{
    1 <= byte && byte <= INFO_BLOCKS
}

// 0x3F.
#[tactic(auto, using(crate::proofs::TransferLaws::selecting))]
pub fn select_block(
    layout: Layout,
    image: &[u8],
    gauge: Gauge,
    byte: u8,
) -> Result<ByteWritten, Error>
    ensures { byte_answer gauge result ≡ select_block layout image.now gauge byte }
{
    if general_access(gauge) {
        return load_block(layout, image, gauge, byte, gauge.class, byte);
    }
    if selects_info(byte) {
        return load_block(layout, image, gauge, byte, INFO_CLASS, byte - 1);
    }
    Err(Error::UnknownBlock)
}

// Block A of a sealed gauge.
#[tactic(auto, unfolding(gaugerules::specs::Transfer::is_protected))]
pub fn is_protected(gauge: Gauge) -> bool
    ensures { result ≡ is_protected gauge }
{
    gauge.mode == SEALED && is_loaded(gauge, INFO_CLASS, BLOCK_A)
}

// Whether the window may be changed.
#[tactic(auto, unfolding(gaugerules::specs::Transfer::edit_error))]
pub fn check_edit(gauge: Gauge) -> Result<(), Error>
    ensures { number_of result ≡ edit_error gauge }
{
    match loaded(gauge) {
        None => Err(Error::NothingLoaded),
        Some(_) if is_protected(gauge) => Err(Error::ProtectedBlock),
        Some(_) => Ok(()),
    }
}

// Another byte in the window; it has no place past its end.
#[tactic(auto, using(crate::proofs::TransferLaws::no_place))]
fn replace_byte(gauge: Gauge, k: usize, byte: u8) -> Gauge
    ensures { result ≡ with_window gauge (set gauge.window k byte) }
{
    let mut next = gauge;
    if k < BLOCK_SIZE {
        next.window[k] = byte;
    }
    next
}

// 0x40 to 0x5F: the place k of the window.
#[tactic(auto, unfolding(gaugerules::specs::Transfer::edit))]
pub fn edit(gauge: Gauge, k: usize, byte: u8) -> Result<ByteWritten, Error>
    ensures { byte_answer gauge result ≡ edit gauge k byte }
{
    check_edit(gauge)?;
    accept(replace_byte(gauge, k, byte))
}

// 0x61.
#[tactic(auto, unfolding(gaugerules::specs::Transfer::set_control))]
pub fn set_control(gauge: Gauge, byte: u8) -> Result<ByteWritten, Error>
    ensures { byte_answer gauge result ≡ set_control gauge byte }
{
    if gauge.mode == SEALED {
        return Err(Error::SealedRegister);
    }
    if CONTROL_INFO < byte {
        return Err(Error::InvalidControl);
    }
    accept(unload(Gauge {
        control: byte,
        ..gauge
    }))
}
