// Whether a gauge is valid for a layout (document 01: sound). Numbers that their type keeps in
// range are not tested.
ghost use Rattle.std.specs.Prelude.{◌≡◌};
ghost use Rattle.gaugerules.specs.Valid.{in_range, is_zero, loaded_valid, pending_valid, only_info_loaded, sealed_valid, valid};

use crate::state::loaded;
use flashrules::layout::{INFO_CLASS, Layout};
use flashrules::lookup::BLOCK_SIZE;
use gaugerules::state::{
    BOOT_OPEN, BlockId, CONTROL_INFO, FULL_ACCESS, Gauge, INFO_BLOCKS, MAX_SUPPLY, NO_BLOCK,
    NO_WORD, SEALED,
};
use layout::lookup::block_exists;

// Every number; those that are not tested are in range by their type.
#[tactic(auto, using(crate::proofs::StateLaws::in_range_is))]
fn in_range(gauge: Gauge) -> bool
    ensures { result ≡ in_range gauge }
{
    gauge.mode <= FULL_ACCESS
        && gauge.boot <= BOOT_OPEN
        && gauge.pending <= NO_WORD
        && gauge.control <= CONTROL_INFO
        && gauge.loaded <= NO_BLOCK
        && gauge.supply <= MAX_SUPPLY
}

#[tactic(auto, using(crate::proofs::StateLaws::zero_is))]
fn is_zero(window: [u8; BLOCK_SIZE]) -> bool
    ensures { result ≡ is_zero window }
{
    window == [0u8; BLOCK_SIZE]
}

// A loaded block exists; with none loaded the window is zero.
fn loaded_valid(layout: Layout, gauge: Gauge) -> bool
    ensures { result ≡ loaded_valid layout gauge }
{
    match loaded(gauge) {
        Some(BlockId { class, block }) => block_exists(layout, class, block),
        None => is_zero(gauge.window),
    }
}

// No word is pending in full access.
fn pending_valid(gauge: Gauge) -> bool
    ensures { result ≡ pending_valid gauge }
{
    gauge.mode != FULL_ACCESS || gauge.pending == NO_WORD
}

fn only_info_loaded(gauge: Gauge) -> bool
    ensures { result ≡ only_info_loaded gauge }
{
    match loaded(gauge) {
        Some(BlockId { class, block }) => class == INFO_CLASS && block < INFO_BLOCKS,
        None => true,
    }
}

// What a sealed gauge may hold.
fn sealed_valid(gauge: Gauge) -> bool
    ensures { result ≡ sealed_valid gauge }
{
    gauge.mode != SEALED || gauge.control == CONTROL_INFO && only_info_loaded(gauge)
}

// Whether a gauge is valid for a layout.
#[tactic(auto, unfolding(gaugerules::specs::Valid::valid))]
pub fn valid(layout: Layout, gauge: Gauge) -> bool
    ensures { result ≡ valid layout gauge }
{
    in_range(gauge) && loaded_valid(layout, gauge) && pending_valid(gauge) && sealed_valid(gauge)
}
