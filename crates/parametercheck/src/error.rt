// Why a parameter is refused: 10, 11, 4, 12, and 13 where a value is to be set. One that is not is
// answered with its kind.
ghost use Rattle.std.specs.Prelude.{◌≡◌, IfOk};
ghost use Rattle.flashrules.specs.Error.{number_of};
ghost use Rattle.parameterrules.specs.Parameter.{leaves_class, get_error, set_error};

use crate::row::Row;
use crate::valid::{in_range, valid_of};
use flashrules::error::Error;
use flashrules::layout::Layout;
use flashrules::lookup::Place;
use integers::kind::Kind;
use layout::lookup::find_class;
use layout::valid::fits;
use parameterrules::parameter::Parameter;

// Whether the bytes of a parameter leave its class, which has so many.
fn leaves_class(row: Row, class_len: usize) -> bool
    ensures { result ≡ leaves_class row.parameter class_len }
{
    class_len < usize::from(row.parameter.offset) + row.kind.width()
}

// Whether a parameter of an image of so many bytes can be read.
#[tactic(auto, using(crate::proofs::ErrorLaws::get_errors))]
pub fn check_get(layout: Layout, image_len: usize, parameter: Parameter) -> Result<Row, Error>
    ensures error { number_of result ≡ get_error layout image_len parameter }
    ensures row { IfOk result (λ row. row.parameter ≡ parameter) }
{
    if !fits(layout, image_len) {
        return Err(Error::Malformed);
    }
    let kind = Kind::try_from(parameter.kind)?;
    let row = Row { parameter, kind };
    if !valid_of(row) {
        return Err(Error::InvalidParameter);
    }
    let Ok(Place { len, .. }) = find_class(layout, parameter.class) else {
        return Err(Error::UnknownClass);
    };
    if leaves_class(row, len) {
        return Err(Error::MisplacedParameter);
    }
    Ok(row)
}

// Whether it can be set to a value.
#[tactic(auto, using(crate::proofs::ErrorLaws::set_errors))]
pub fn check_set(
    layout: Layout,
    image_len: usize,
    parameter: Parameter,
    value: i64,
) -> Result<Row, Error>
    ensures error { number_of result ≡ set_error layout image_len parameter value }
    ensures row { IfOk result (λ row. row.parameter ≡ parameter) }
{
    let row = check_get(layout, image_len, parameter)?;
    if !in_range(parameter, value) {
        return Err(Error::OutOfRange);
    }
    Ok(row)
}
