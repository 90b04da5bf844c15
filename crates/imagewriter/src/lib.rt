// An image file is written: the text of a layout and its image, into a lent buffer. Refusals come
// in the order 10, 14; a refused call leaves the buffer untouched.
#![tactic(auto)]

mod text;

ghost use Rattle.std.specs.Prelude.{◌≡◌};
ghost use Rattle.flashrules.specs.Outcome.{outcome};
ghost use Rattle.imagerules.specs.Answer.{write_answer};
ghost use Rattle.imagerules.specs.File.{write};

use crate::text::{put_text, text_length};
use flashrules::error::Error;
use flashrules::layout::Layout;
use layout::valid::fits;

// The text of a layout and its image, at the front of the buffer: how long it is.
#[tactic(auto, using(crate::proofs::CallLaws::calls))]
pub fn write(layout: Layout, image: &[u8], buffer: &mut [u8]) -> Result<usize, Error>
    ensures { outcome (write_answer result) buffer.new ≡ write layout image.now buffer.old }
{
    if !fits(layout, image.len()) {
        return Err(Error::Malformed);
    }
    let length = text_length(layout);
    if buffer.len() < length {
        return Err(Error::ShortBuffer);
    }
    put_text(layout, image, buffer);
    Ok(length)
}
