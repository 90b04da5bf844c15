// The functions exported to C: thin covers over the libraries' own, which answer numbers where
// those answer refusals. Nothing is kept between calls, and nothing requires anything of its
// arguments. In C a slice is a pointer and a length, and a null pointer with length 0 is the empty
// one.
#![tactic(auto)]

ghost use Rattle.std.specs.Prelude.{◌≡◌};
ghost use Rattle.checksum.specs.Checksum.{checksum};
ghost use Rattle.flashrules.specs.Outcome.{outcome};
ghost use Rattle.imagerules.specs.File.{parse_image, check_error};
ghost use Rattle.parameterrules.specs.Parameter.{get, set};
ghost use Rattle.parameterrules.specs.Commits.{set_lower};

use flashrules::error::number_of;
use flashrules::layout::Layout;
use parameterrules::parameter::{Parameter, ParameterValue, Value};

// Document 01: "The checksum takes any number of bytes and sums them all".
#[unsafe(no_mangle)]
pub extern "C" fn oversnithe_checksum(bytes: &[u8]) -> u8
    ensures { result ≡ checksum bytes.now }
{
    checksum::checksum(bytes)
}

// Document 01: "the image check takes a file's text and answers 0 or 10".
#[unsafe(no_mangle)]
pub extern "C" fn oversnithe_image_check(text: &[u8]) -> u8
    ensures { result ≡ check_error (parse_image text.now) }
{
    number_of(imagereader::check(text).err())
}

#[unsafe(no_mangle)]
pub extern "C" fn oversnithe_parameter_get(
    layout: Layout,
    image: &[u8],
    parameter: Parameter,
) -> ParameterValue
    ensures { result ≡ get layout image.now parameter }
{
    match parameters::get(layout, image, parameter) {
        Ok(Value { value, in_range }) => ParameterValue {
            error: 0,
            value,
            in_range,
        },
        Err(error) => ParameterValue {
            error: error.number(),
            value: 0,
            in_range: false,
        },
    }
}

#[unsafe(no_mangle)]
pub extern "C" fn oversnithe_parameter_set(
    layout: Layout,
    image: &mut [u8],
    parameter: Parameter,
    value: i64,
) -> u8
    ensures { outcome result image.new ≡ set layout image.old parameter value }
{
    number_of(parameters::set(layout, image, parameter, value).err())
}

// What a cut of power between the two commits of a set leaves.
#[unsafe(no_mangle)]
pub extern "C" fn oversnithe_parameter_set_lower(
    layout: Layout,
    image: &mut [u8],
    parameter: Parameter,
    value: i64,
) -> u8
    ensures { outcome result image.new ≡ set_lower layout image.old parameter value }
{
    number_of(parameters::set_lower(layout, image, parameter, value).err())
}
