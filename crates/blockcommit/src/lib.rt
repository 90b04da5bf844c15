// A commit: what a byte at 0x60 does. A refused byte leaves gauge and image as they were.
#![tactic(auto)]

ghost use Rattle.std.specs.Prelude.{◌≡◌, take};
ghost use Rattle.flashrules.specs.Error.{number_of};
ghost use Rattle.flashrules.specs.Outcome.{outcome};
ghost use Rattle.flashrules.specs.Choice.{differing};
ghost use Rattle.gaugerules.specs.Keys.{keys_end, key_bytes};
ghost use Rattle.gaugerules.specs.Answer.{byte_answer};
ghost use Rattle.gaugerules.specs.Transfer.{changes_keys, commit_error};
ghost use Rattle.gaugerules.specs.Write.{commit};

use blocktransfer::check_edit;
use checksum::checksum;
use dataflash::count::differing;
use dataflash::{store_block, store_changes};
use flashrules::error::Error;
use flashrules::layout::{KEY_CLASS, Layout};
use flashrules::lookup::BLOCK_SIZE;
use gaugerules::answer::ByteWritten;
use gaugerules::keys::{KEY_BLOCK, KEYS_END};
use gaugerules::state::{BlockId, Gauge, MIN_COMMIT_SUPPLY, UNSEALED};
use gaugestate::state::{is_loaded, loaded};

// In how many places the key bytes of the flash differ from a window's first ones.
#[tactic(auto, using(crate::proofs::CommitLaws::keys_end_is))]
fn keys_differing(layout: Layout, image: &[u8], window: [u8; BLOCK_SIZE]) -> usize
    ensures { result ≡ differing (key_bytes layout image.now) (take keys_end window) }
{
    let keys = dataflash::block(layout, image, KEY_CLASS, KEY_BLOCK);
    let end = keys.len().min(KEYS_END);
    differing(&keys[..end], &window[..KEYS_END])
}

// Whether a commit would change a key of an unsealed gauge.
#[tactic(auto, unfolding(gaugerules::specs::Transfer::changes_keys))]
fn changes_keys(layout: Layout, image: &[u8], gauge: Gauge) -> bool
    ensures { result ≡ changes_keys layout image.now gauge }
{
    gauge.mode == UNSEALED
        && is_loaded(gauge, KEY_CLASS, KEY_BLOCK)
        && keys_differing(layout, image, gauge.window) != 0
}

// Whether the window may be committed by this byte.
#[tactic(auto, using(crate::proofs::CommitLaws::commit_refusals))]
fn check_commit(layout: Layout, image: &[u8], gauge: Gauge, byte: u8) -> Result<(), Error>
    ensures { number_of result ≡ commit_error layout image.now gauge byte }
{
    check_edit(gauge)?;
    if byte != checksum(&gauge.window) {
        return Err(Error::WrongChecksum);
    }
    if changes_keys(layout, image, gauge) {
        return Err(Error::ProtectedKeys);
    }
    if gauge.supply < MIN_COMMIT_SUPPLY {
        return Err(Error::LowSupply);
    }
    Ok(())
}

// 0x60: the answer counts the bytes of the image that the commit changed.
#[tactic(auto, using(crate::proofs::CommitLaws::commitments))]
pub fn commit(
    layout: Layout,
    image: &mut [u8],
    gauge: Gauge,
    byte: u8,
) -> Result<ByteWritten, Error>
    ensures { outcome (byte_answer gauge result) image.new ≡ commit layout image.old gauge byte }
{
    check_commit(layout, &image[..], gauge, byte)?;
    let Some(BlockId { class, block }) = loaded(gauge) else {
        return Ok(ByteWritten { changed: 0, gauge });
    };
    let changed = store_changes(layout, &image[..], class, block, gauge.window);
    let _ = store_block(layout, image, class, block, gauge.window);
    Ok(ByteWritten { changed, gauge })
}
