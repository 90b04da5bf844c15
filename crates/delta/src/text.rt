// The text of the runs between two images. What would lie past the buffer's end is not stored, and
// the length answered is that of the whole text.
// Stays: a place beside the buffer, as in `hextext`.
ghost use Rattle.std.specs.Prelude.{◌≡◌, true, ◌+◌, ◌*◌, ◌≤◌, length};
ghost use Rattle.std.proofs.lemmas.List.Edits.{sets};
ghost use Rattle.flashrules.specs.Layout.{max_image_length, fits};
ghost use Rattle.deltarules.specs.Run.{run, class_runs, runs};
ghost use Rattle.deltarules.specs.Text.{run_line, serialize_runs};

use crate::pair::Pair;
use crate::span::span_end;
use flashrules::layout::Layout;
use hextext::{encode, encode_line};
use layout::entry::entries;

// One run's line; answers where the next line goes.
#[tactic(auto, using(crate::proofs::TextLaws::run_put))]
fn put_run(class: u8, offset: usize, pair: Pair, buffer: &mut [u8], at: usize) -> usize
    requires { (offset ≤ max_image_length) × (length pair.old.now ≤ max_image_length) × (at ≤ 11 * max_image_length) }
    ensures value { result ≡ at + (7 + 4 * length pair.entry.old.now) }
    ensures buffer_after { buffer.new ≡ sets buffer.old at (run_line (run class offset pair.entry.old.now pair.entry.new.now)) }
{
    let [high, low] = (offset as u16).to_be_bytes();
    encode(&[class, high, low], buffer, at);
    encode(pair.old, buffer, at + 6);
    encode_line(pair.new, buffer, at + 6 + 2 * pair.len());
    at + (7 + 4 * pair.len())
}

// The lines of a class, whose bytes the two images have so; answers where the next line goes.
#[tactic(auto, using(crate::proofs::TextLaws::class_runs_put))]
fn put_class(class: u8, pair: Pair, buffer: &mut [u8], at: usize) -> usize
    requires { (length pair.old.now ≤ max_image_length) × (at + 11 * length pair.old.now ≤ 11 * max_image_length) }
    ensures value { (result ≡ at + length (serialize_runs (class_runs class 0 pair.entry.old.now pair.entry.new.now))) × (result ≤ at + 11 * length pair.entry.old.now) }
    ensures buffer_after { buffer.new ≡ sets buffer.old at (serialize_runs (class_runs class 0 pair.entry.old.now pair.entry.new.now)) }
{
    let mut from = span_end(pair, 0, true);
    let mut out = at;
    // Stays: the index goes on by whole spans, which differ in length.
    while from < pair.len() {
        let to = span_end(pair, from, false);
        out = put_run(class, from, pair.part(from, to), buffer, out);
        from = span_end(pair, to, true);
    }
    out
}

// The lines of all classes, from the front of the buffer on; answers how long they are.
// Stays: `imagewriter` goes over the same entries with one image. What is common is `entries`.
#[tactic(auto, using(crate::proofs::TextLaws::parts))]
pub(crate) fn put_runs(layout: Layout, pair: Pair, buffer: &mut [u8]) -> usize
    requires { fits layout (length pair.old.now) ≡ true }
    ensures value { result ≡ length (serialize_runs (runs layout pair.entry.old.now pair.entry.new.now)) }
    ensures buffer_after { buffer.new ≡ sets buffer.old 0 (serialize_runs (runs layout pair.entry.old.now pair.entry.new.now)) }
{
    let mut rest = pair;
    let mut out = 0;
    for (class, n) in entries(&layout) {
        let (bytes, behind) = rest.split_at(usize::from(*n));
        out = put_class(*class, bytes, buffer, out);
        rest = behind;
    }
    out
}
