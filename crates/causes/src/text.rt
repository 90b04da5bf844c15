// The line that is printed of a refused write or supply.
// Stays: a place beside the buffer, as in `hextext`.
ghost use Rattle.std.specs.Prelude.{◌≡◌, length};
ghost use Rattle.std.proofs.lemmas.List.Edits.{sets};
ghost use Rattle.causerules.specs.Notes.{tracked_text};

use crate::notes::recall;
use crate::reason::reason_of;
use causerules::notes::TrackAnswer;
use checksum::checksum;
use flashrules::error::Error;
use hextext::encode_line;

// Puts it into the buffer from an index on, and says how long it is; nothing for a write that was
// accepted. It is given what was tracked, or an answer with any number.
#[tactic(auto, using(crate::proofs::TextLaws::texts))]
pub fn put_cause<T: Into<TrackAnswer>>(tracked: T, buffer: &mut [u8], at: usize) -> usize
    ensures { (n : TrackAnswer) × T.converts tracked n × (buffer.new ≡ sets buffer.old at (tracked_text n)) × (result ≡ length (tracked_text n)) }
{
    let TrackAnswer {
        error,
        gauge,
        notes,
    } = tracked.into();
    if error == 0 {
        return 0;
    }
    let [a, b, c, d] = recall(notes, reason_of(error, gauge)).to_be_bytes();
    if error == Error::WrongChecksum.number() {
        let sum = checksum(&gauge.window);
        encode_line(&[error, a, b, c, d, sum], buffer, at);
        13
    } else {
        encode_line(&[error, a, b, c, d], buffer, at);
        11
    }
}
