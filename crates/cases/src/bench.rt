// The layout and the image of every case.
ghost use Rattle.std.specs.Prelude.{◌≡◌};
ghost use Rattle.integers.specs.Kind.{number};
ghost use Rattle.casetable.specs.Cases.{bench_layout, bench_image, bench_parameter};

use flashrules::layout::Layout;
use integers::kind::Kind;
use parameterrules::parameter::Parameter;

pub(crate) const IMAGE_LENGTH: usize = 157;

pub(crate) fn bench_layout() -> Layout
    ensures { result ≡ bench_layout }
{
    let mut layout = Layout {
        count: 3,
        ids: [0; 32],
        lengths: [0; 32],
    };
    layout.ids[0] = 48;
    layout.lengths[0] = 33;
    layout.ids[1] = 58;
    layout.lengths[1] = 96;
    layout.ids[2] = 112;
    layout.lengths[2] = 28;
    layout
}

pub(crate) fn bench_image(first: u8) -> [u8; IMAGE_LENGTH]
    ensures { result ≡ bench_image first }
{
    let mut image = [0u8; IMAGE_LENGTH];
    image[0] = first;
    image[129] = 0x14;
    image[130] = 0x04;
    image[131] = 0x72;
    image[132] = 0x36;
    image
}

// The image with other bytes from an index on.
pub(crate) fn changed_image(first: u8, at: usize, bytes: &[u8]) -> [u8; IMAGE_LENGTH] {
    let mut image = bench_image(first);
    for (old, new) in image.iter_mut().skip(at).zip(bytes) {
        *old = *new;
    }
    image
}

// A parameter, by its place and its range.
pub(crate) fn bench_parameter(class: u8, offset: u16, kind: Kind, min: i64, max: i64) -> Parameter
    ensures { result ≡ bench_parameter class offset (number kind) min max }
{
    Parameter {
        class,
        offset,
        kind: kind.number(),
        min,
        max,
    }
}
