// Finding a class and a block of a class: where its bytes lie in the image, or the refusal.
// Refusals come in the order 10, 4, 5. The layout is tested at each call: a few passes over
// the entries in use, at most 32, and no byte of the image.
ghost use Rattle.std.specs.Prelude.{◌≡◌, ◌*◌, ◌≤◌, min};
ghost use Rattle.flashrules.specs.Layout.{max_image_length, classes, locate};
ghost use Rattle.flashrules.specs.Lookup.{block_size, find_class, block_in, find_block, block_exists};

use crate::entry::entries;
use crate::valid::{fits, valid};
use flashrules::error::Error;
use flashrules::layout::Layout;
use flashrules::lookup::{BLOCK_SIZE, Lookup, Place};

// The class search itself, over the entries in use.
#[tactic(auto, using(crate::proofs::EntryLaws::left_none))]
pub(crate) fn locate(layout: &Layout, class: u8) -> Lookup
    ensures { result ≡ locate 0 (classes layout.now) class }
{
    let mut start: usize = 0;
    for (id, len) in entries(layout) {
        let len = usize::from(*len);
        if *id == class {
            return Ok(Place { start, len });
        }
        start += len;
    }
    Err(Error::UnknownClass)
}

// The place of a class in the image; 10 for the layout, then 4.
#[tactic(auto, unfolding(flashrules::specs::Lookup::find_class))]
pub fn find_class(layout: Layout, class: u8) -> Lookup
    ensures { result ≡ find_class layout class }
{
    if !valid(layout) {
        return Err(Error::Malformed);
    }
    locate(&layout, class)
}

// Where a block starts inside its class.
fn block_offset(block: u8) -> usize
    ensures { (result ≡ block_size * block) × (result ≤ block_size * 255) }
{
    BLOCK_SIZE * usize::from(block)
}

// How many bytes a block has, with so many left of its class.
pub fn block_length(rest: usize) -> usize
    ensures { result ≡ min block_size rest }
{
    rest.min(BLOCK_SIZE)
}

// A block of a class that starts at `start` and has `len` bytes.
fn block_in(start: usize, len: usize, block: u8) -> Lookup
    requires { start ≤ max_image_length }
    ensures { result ≡ block_in start len block }
{
    let offset = block_offset(block);
    if len <= offset {
        return Err(Error::UnknownBlock);
    }
    Ok(Place {
        start: start + offset,
        len: block_length(len - offset),
    })
}

// The place of a block in an image of so many bytes; 10 for the layout or the image's length, then
// 4, then 5.
#[tactic(auto, using(flashrules::proofs::LookupLaws::blocks))]
pub fn find_block(layout: Layout, image_len: usize, class: u8, block: u8) -> Lookup
    ensures { result ≡ find_block layout image_len class block }
{
    if !fits(layout, image_len) {
        return Err(Error::Malformed);
    }
    let Ok(Place { start, len }) = locate(&layout, class) else {
        return Err(Error::UnknownClass);
    };
    block_in(start, len, block)
}

// Whether a class of the layout has a block of this number.
#[tactic(auto, unfolding(flashrules::specs::Lookup::block_exists))]
pub fn block_exists(layout: Layout, class: u8, block: u8) -> bool
    ensures { result ≡ block_exists layout class block }
{
    match find_class(layout, class) {
        Ok(place) => block_offset(block) < place.len,
        Err(_) => false,
    }
}
