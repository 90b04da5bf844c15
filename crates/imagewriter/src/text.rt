// The text of a layout and its image, into a buffer that has room for it.
// Stays: a place beside the buffer, as in `hextext`.
ghost use Rattle.std.specs.Prelude.{◌≡◌, true, ◌+◌, ◌*◌, ◌≤◌, length};
ghost use Rattle.std.proofs.lemmas.List.Edits.{sets};
ghost use Rattle.flashrules.specs.Layout.{max_class_length, classes, valid, fits};
ghost use Rattle.imagerules.specs.Text.{line, class_text, serialize_image, class_length, text_length, max_text};

use checksum::checksum;
use flashrules::layout::Layout;
use flashrules::lookup::BLOCK_SIZE;
use hextext::{encode, encode_line};
use layout::entry::entries;

// One block's line. A block's checksum as loaded is that of its own bytes.
#[tactic(auto, using(crate::proofs::WriteLaws::line_put))]
fn put_line(class: u8, block: u8, bytes: &[u8], buffer: &mut [u8], at: usize)
    requires { at + (2 * length bytes.now + 7) ≤ length buffer.old }
    ensures { buffer.new ≡ sets buffer.old at (line class block bytes.now) }
{
    encode(&[class, block], buffer, at);
    encode(bytes, buffer, at + 4);
    encode_line(&[checksum(bytes)], buffer, at + 4 + 2 * bytes.len());
}

// The lines of a class.
#[tactic(auto, using(crate::proofs::WriteLaws::block_end))]
fn put_class(class: u8, bytes: &[u8], buffer: &mut [u8], at: usize)
    requires { (length bytes.now ≤ max_class_length) × (at + class_length (length bytes.now) ≤ length buffer.old) }
    ensures { buffer.new ≡ sets buffer.old at (class_text class bytes.now) }
{
    let mut out = at;
    for (block, part) in bytes.chunks(BLOCK_SIZE).enumerate() {
        put_line(class, block as u8, part, buffer, out);
        out += 2 * part.len() + 7;
    }
}

// How long the text of a class is that has so many bytes; small enough that 32 of them can be
// summed.
fn class_length(n: u16) -> usize
    ensures { (result ≡ class_length n) × (result ≤ 200000) }
{
    let n = usize::from(n);
    2 * n + 7 * n.div_ceil(BLOCK_SIZE)
}

// How long the text of an image is.
#[tactic(auto, using(crate::proofs::WriteLaws::lengths))]
pub(crate) fn text_length(layout: Layout) -> usize
    requires { valid layout ≡ true }
    ensures { (result ≡ text_length (classes layout)) × (result ≤ max_text) }
{
    let mut sum = 0;
    for n in &layout.lengths[..layout.count] {
        sum += class_length(*n);
    }
    sum
}

// The text of an image, at the front of the buffer.
#[tactic(auto, using(crate::proofs::WriteLaws::parts))]
pub(crate) fn put_text(layout: Layout, image: &[u8], buffer: &mut [u8])
    requires { (fits layout (length image.now) ≡ true) × (text_length (classes layout) ≤ length buffer.old) }
    ensures { buffer.new ≡ sets buffer.old 0 (serialize_image layout image.now) }
{
    let mut rest = image;
    let mut out = 0;
    for (class, n) in entries(&layout) {
        let (bytes, behind) = rest.split_at(usize::from(*n));
        put_class(*class, bytes, buffer, out);
        out += class_length(*n);
        rest = behind;
    }
}
