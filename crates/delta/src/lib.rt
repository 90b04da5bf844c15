// What differs between two images of one layout: the text of the list of runs, into a lent buffer.
// Refusals come in the order 10, 18, 14; a refused call leaves the buffer untouched.
#![tactic(auto)]

mod pair;
mod span;
mod text;

ghost use Rattle.std.specs.Prelude.{◌≡◌};
ghost use Rattle.flashrules.specs.Error.{number_of};
ghost use Rattle.flashrules.specs.Outcome.{outcome};
ghost use Rattle.imagerules.specs.Answer.{write_answer};
ghost use Rattle.deltarules.specs.Compare.{pair_error, compare};

use crate::pair::Pair;
use crate::text::put_runs;
use flashrules::error::Error;
use flashrules::layout::Layout;
use layout::same::same;
use layout::valid::fits;

// Whether two images, of so many bytes each, can be compared: 10 for either, then 18.
#[tactic(auto, unfolding(deltarules::specs::Compare::pair_error))]
fn check_pair(layout: Layout, old_len: usize, other: Layout, new_len: usize) -> Result<(), Error>
    ensures { number_of result ≡ pair_error layout old_len other new_len }
{
    if !fits(layout, old_len) || !fits(other, new_len) {
        return Err(Error::Malformed);
    }
    if !same(layout, other) {
        return Err(Error::LayoutMismatch);
    }
    Ok(())
}

// The list of runs, at the front of the buffer. The text is put into an empty buffer first, for its
// length.
#[tactic(auto, using(crate::proofs::CompareLaws::compares))]
pub fn compare(
    layout: Layout,
    old: &[u8],
    other: Layout,
    new: &[u8],
    buffer: &mut [u8],
) -> Result<usize, Error>
    ensures { outcome (write_answer result) buffer.new ≡ compare layout old.now other new.now buffer.old }
{
    check_pair(layout, old.len(), other, new.len())?;
    let pair = Pair { old, new };
    let length = put_runs(layout, pair, &mut []);
    if buffer.len() < length {
        return Err(Error::ShortBuffer);
    }
    put_runs(layout, pair, buffer);
    Ok(length)
}
