// An image file is parsed and read. Refusals come in the order 10, 14; a refused call leaves the
// lent buffer untouched.
//
// Reading takes a candidate for what a text holds, asking hardly anything of it, writes the text of
// that candidate and compares. So what is accepted is written out as the very same text by
// construction; order, gaps, checksums, case and line ends are judged by the one function that
// writes them. No more than 160 lines are looked at, so a text costs its length once, to find line
// feeds in it.
#![tactic(auto)]

mod candidate;
mod classes;

ghost use Rattle.std.specs.Prelude.{◌≡◌, ◌*◌, ◌≤◌, true, false, length, take, MatchResult};
ghost use Rattle.flashrules.specs.Error.{number_of};
ghost use Rattle.flashrules.specs.Lookup.{block_size};
ghost use Rattle.flashrules.specs.Outcome.{outcome};
ghost use Rattle.flashrules.specs.declared.error.Error.TheVariants.{Malformed};
ghost use Rattle.imagerules.specs.Answer.{read_answer};
ghost use Rattle.imagerules.specs.Candidate.{content, candidate};
ghost use Rattle.imagerules.specs.File.{holds, parse_image, check_error, read};
ghost use Rattle.imagerules.specs.Text.{max_lines};

use crate::candidate::candidate;
use flashrules::error::Error;
use flashrules::layout::Layout;
use flashrules::lookup::BLOCK_SIZE;
use imagerules::answer::FileRead;
use imagerules::text::{MAX_LINES, MAX_TEXT};
use imagewriter::write;

// Whether a text is that of a layout and image: the text is written again, and compared.
#[tactic(auto, using(crate::proofs::FileLaws::texts))]
fn is_text_of(layout: Layout, image: &[u8], text: &[u8]) -> bool
    ensures { result ≡ holds (content layout image.now) text.now }
{
    let mut again = [0u8; MAX_TEXT];
    match write(layout, image, &mut again) {
        Ok(length) => &again[..length] == text,
        Err(_) => false,
    }
}

// What a text holds, if it is that of an image; the image is put in front of a buffer.
fn parse(text: &[u8], buffer: &mut [u8]) -> Result<FileRead, Error>
    requires { max_lines * block_size ≤ length buffer.old }
    ensures { MatchResult result (λ found. (holds (candidate text.now) text.now ≡ true) × (content found.layout (take found.length buffer.new) ≡ candidate text.now) × (found.length ≤ length buffer.new)) (λ error. (error ≡ Malformed) × (holds (candidate text.now) text.now ≡ false)) }
{
    let found = candidate(text, buffer);
    if is_text_of(found.layout, &buffer[..found.length], text) {
        Ok(found)
    } else {
        Err(Error::Malformed)
    }
}

// Whether a text is that of an image; 10 for any other.
#[tactic(auto, using(crate::proofs::FileLaws::checks))]
pub fn check(text: &[u8]) -> Result<(), Error>
    ensures { number_of result ≡ check_error (parse_image text.now) }
{
    let mut image = [0u8; MAX_LINES * BLOCK_SIZE];
    parse(text, &mut image)?;
    Ok(())
}

// The layout of an image file, and its image at the front of the buffer.
#[tactic(auto, using(crate::proofs::FileLaws::reads))]
pub fn read(text: &[u8], buffer: &mut [u8]) -> Result<FileRead, Error>
    ensures { outcome (read_answer result) buffer.new ≡ read text.now buffer.old }
{
    let mut image = [0u8; MAX_LINES * BLOCK_SIZE];
    let found = parse(text, &mut image)?;
    let n = found.length;
    if buffer.len() < n {
        return Err(Error::ShortBuffer);
    }
    buffer[..n].copy_from_slice(&image[..n]);
    Ok(found)
}
