// The blocks of an image, by the lookup: handed out as parts of the lent slice itself, compared
// with a window, and stored into. A store touches the block's own bytes and no other, however short
// the block; a refused call touches none.
#![tactic(auto)]

pub mod count;

ghost use Rattle.std.specs.Prelude.{◌≡◌, ◌+◌, length};
ghost use Rattle.flashrules.specs.Choice.{differing};
ghost use Rattle.flashrules.specs.Answer.{error_of};
ghost use Rattle.flashrules.specs.Error.{number_of};
ghost use Rattle.flashrules.specs.Lookup.{find_block};
ghost use Rattle.flashrules.specs.Image.{block_bytes, block_place, store_block};

use crate::count::differing;
use flashrules::error::Error;
use flashrules::layout::Layout;
use flashrules::lookup::{BLOCK_SIZE, Place};
use layout::lookup::find_block;

// The block itself, a part of the lent image and no copy; an empty part where the lookup is
// refused, as document 01 has it ("A refused block request gives an empty part").
#[tactic(auto, using(crate::proofs::Place::laws))]
pub fn block<'a>(layout: Layout, image: &'a [u8], class: u8, block: u8) -> &'a [u8]
    ensures result_value { result.now ≡ block_bytes layout image.now class block }
    ensures ref_ptr_value { result.ref_ptr ≡ block_place image.entry.ref_ptr layout image.now class block }
{
    match find_block(layout, image.len(), class, block) {
        Ok(Place { start, len }) => &image[start..start + len],
        Err(_) => &image[..0],
    }
}

// How many bytes of the image a store of a window into a block changes.
#[tactic(auto, using(crate::proofs::CountLaws::stores))]
pub fn store_changes(
    layout: Layout,
    image: &[u8],
    class: u8,
    block: u8,
    window: [u8; BLOCK_SIZE],
) -> usize
    ensures { result ≡ differing image.now (store_block layout image.now class block window) }
{
    let part = crate::block(layout, image, class, block);
    let len = part.len();
    differing(part, &window[..len])
}

// Stores a window's first bytes into a block, as many as the block has, or answers the lookup's
// refusal.
#[tactic(auto, using(crate::proofs::Place::laws), unfolding(flashrules::specs::Image::store_block))]
pub fn store_block(
    layout: Layout,
    image: &mut [u8],
    class: u8,
    block: u8,
    window: [u8; BLOCK_SIZE],
) -> Result<(), Error>
    ensures value { number_of result ≡ error_of (find_block layout (length image.old) class block) }
    ensures image_after { image.new ≡ store_block layout image.old class block window }
{
    let Place { start, len } = find_block(layout, image.len(), class, block)?;
    image[start..start + len].copy_from_slice(&window[..len]);
    Ok(())
}
