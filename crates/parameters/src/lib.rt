// Typed parameters over the gauge: a value is read and set as a programmer does it with a pack,
// through the gauge's public calls. Every function answers every argument; a contract is an
// equation with a definition of crate `parameterrules`, where the rules are to be read.
#![tactic(auto)]

mod block;
mod row;

ghost use Rattle.std.specs.Prelude.{◌≡◌};
ghost use Rattle.flashrules.specs.Error.{number_of};
ghost use Rattle.flashrules.specs.Outcome.{outcome};
ghost use Rattle.parameterrules.specs.Answer.{value_answer};
ghost use Rattle.parameterrules.specs.Parameter.{get, set};
ghost use Rattle.parameterrules.specs.Commits.{set_lower};

use crate::row::{store, store_lower, value_in};
use flashrules::error::Error;
use flashrules::layout::Layout;
use parametercheck::error::{check_get, check_set};
use parametercheck::valid::in_range;
use parameterrules::parameter::{Parameter, Value};

// The value of a parameter, and whether it is in range.
#[tactic(auto, unfolding(parameterrules::specs::Parameter::get))]
pub fn get(layout: Layout, image: &[u8], parameter: Parameter) -> Result<Value, Error>
    ensures { value_answer result ≡ get layout image.now parameter }
{
    let row = check_get(layout, image.len(), parameter)?;
    let value = value_in(layout, image, row);
    Ok(Value {
        value,
        in_range: in_range(parameter, value),
    })
}

// Sets a parameter to a value. Refused: the image stays as it was.
pub fn set(layout: Layout, image: &mut [u8], parameter: Parameter, value: i64) -> Result<(), Error>
    ensures { outcome (number_of result) image.new ≡ set layout image.old parameter value }
{
    let row = check_set(layout, image.len(), parameter, value)?;
    store(layout, image, row, value);
    Ok(())
}

// Sets those of a parameter's bytes that lie in the block that it begins in: what a cut of power
// finds between the two commits of a row that crosses the block's end. Refused as `set`.
// Stays: it differs from `set` in one call; a closure for that call would be no shorter.
pub fn set_lower(
    layout: Layout,
    image: &mut [u8],
    parameter: Parameter,
    value: i64,
) -> Result<(), Error>
    ensures { outcome (number_of result) image.new ≡ set_lower layout image.old parameter value }
{
    let row = check_set(layout, image.len(), parameter, value)?;
    store_lower(layout, image, row, value);
    Ok(())
}
