// A parameter (document 01: a row) with the kind that its number stands for: what a check answers,
// so that whoever reads or sets the bytes has the kind.
ghost use Rattle.std.specs.Prelude.{◌≡◌};
ghost use Rattle.integers.specs.Kind.{number};

use integers::kind::Kind;
use parameterrules::parameter::Parameter;

#[derive(Clone, Copy)]
pub struct Row {
    pub parameter: Parameter,
    pub kind: Kind,
    pub ghost numbered: { number kind ≡ parameter.kind },
}
