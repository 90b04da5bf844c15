// The supply of a gauge is set. Every argument is answered; the contract is an equation with a
// definition of crate `gaugerules`. Document 02, C-16.
#![tactic(auto)]

ghost use Rattle.std.specs.Prelude.{◌≡◌};
ghost use Rattle.gaugerules.specs.Answer.{supply_answer};
ghost use Rattle.gaugerules.specs.Supply.{set_supply};

use flashrules::error::Error;
use flashrules::layout::Layout;
use gaugerules::state::{Gauge, MAX_SUPPLY};
use gaugestate::entry::check_entry;

// To so many millivolts, in any mode; the image has so many bytes. A refused one leaves the
// gauge as it was.
#[tactic(auto, using(crate::proofs::SupplyLaws::supply_is))]
pub fn set_supply(
    layout: Layout,
    image_len: usize,
    gauge: Gauge,
    millivolts: u16,
) -> Result<Gauge, Error>
    ensures { supply_answer gauge result ≡ set_supply layout image_len gauge millivolts }
{
    check_entry(layout, image_len, gauge, MAX_SUPPLY < millivolts)?;
    Ok(Gauge {
        supply: millivolts,
        ..gauge
    })
}
