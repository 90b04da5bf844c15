// Which parameters are valid (document 01: sound), and which values are in range.
ghost use Rattle.std.specs.Prelude.{◌≡◌};
ghost use Rattle.parameterrules.specs.Parameter.{valid, in_range};

use crate::row::Row;
use integers::kind::Kind;
use parameterrules::parameter::Parameter;

// Whether a parameter is valid, once its kind is known.
#[tactic(auto, using(crate::proofs::KindLaws::valids))]
pub(crate) fn valid_of(row: Row) -> bool
    ensures { result ≡ valid row.parameter }
{
    let Row { parameter, kind } = row;
    let Parameter { min, max, .. } = parameter;
    min <= max && kind.holds(min) && kind.holds(max)
}

// Whether a parameter is valid.
#[tactic(auto, using(crate::proofs::KindLaws::kinds))]
pub fn valid(parameter: Parameter) -> bool
    ensures { result ≡ valid parameter }
{
    match Kind::try_from(parameter.kind) {
        Ok(kind) => valid_of(Row { parameter, kind }),
        Err(_) => false,
    }
}

// Whether a value is in a parameter's range.
#[tactic(auto, unfolding(parameterrules::specs::Parameter::in_range))]
pub fn in_range(parameter: Parameter, value: i64) -> bool
    ensures { result ≡ in_range parameter value }
{
    parameter.min <= value && value <= parameter.max
}
