// The refusals that come before a call is looked at.
// Stays: `bad` is a flag. Each call has its own test for an argument, and it comes third in all.
ghost use Rattle.std.specs.Prelude.{◌≡◌};
ghost use Rattle.flashrules.specs.Error.{number_of};
ghost use Rattle.flashrules.specs.Refusal.{first_error};
ghost use Rattle.gaugerules.specs.Write.{entry_tests};

use crate::valid::valid;
use flashrules::error::Error;
use flashrules::layout::Layout;
use gaugerules::state::Gauge;
use layout::valid::fits;

// Of a call on a gauge over an image of so many bytes, an argument of which may be bad.
pub fn check_entry(layout: Layout, image_len: usize, gauge: Gauge, bad: bool) -> Result<(), Error>
    ensures { number_of result ≡ first_error (entry_tests layout image_len gauge bad) }
{
    if !fits(layout, image_len) {
        Err(Error::Malformed)
    } else if !valid(layout, gauge) {
        Err(Error::InvalidGauge)
    } else if bad {
        Err(Error::InvalidArgument)
    } else {
        Ok(())
    }
}
