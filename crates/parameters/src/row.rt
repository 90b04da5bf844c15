// A parameter's bytes through the gauge, powered on open: those in the lower block first, and then,
// where they cross the block's end, the others in the next one.
// Stays: that a parameter is not refused is a `requires`, since it speaks of the length of the
// image, which each call is lent.
ghost use Rattle.std.specs.Prelude.{◌≡◌, ◌≤◌, length, take};
ghost use Rattle.gaugerules.specs.Script.{device};
ghost use Rattle.parameterrules.specs.Kind.{max_width, width_of};
ghost use Rattle.parameterrules.specs.Parameter.{get_error, set_error, row_bytes, value_in};
ghost use Rattle.parameterrules.specs.Commits.{lower_width};
ghost use Rattle.parameters.specs.Access.{first_commit, set_on_gauge};

use crate::block::{Place, open_flash, receive, send};
use flashrules::layout::{Layout, MAX_IMAGE_LENGTH};
use flashrules::lookup::BLOCK_SIZE;
use gaugerules::state::Gauge;
use integers::bytes::{from_bytes, to_bytes};
use parametercheck::row::Row;
use parameterrules::kind::MAX_WIDTH;

// How many of its bytes lie in the block that it begins in.
fn lower_width(row: Row) -> usize
    ensures value { result ≡ lower_width row.parameter }
    ensures upper_bound { result ≤ max_width }
{
    let room = BLOCK_SIZE - usize::from(row.parameter.offset) % BLOCK_SIZE;
    row.kind.width().min(room)
}

// Its bytes, read in the window; what stands behind them means nothing.
fn fetch(layout: Layout, image: &mut [u8], row: Row) -> [u8; MAX_WIDTH]
    requires { get_error layout (length image.old) row.parameter ≡ 0 }
    ensures { take (width_of row.parameter.kind) result ≡ row_bytes layout image.old row.parameter }
{
    let class = row.parameter.class;
    let at = usize::from(row.parameter.offset);
    let size = row.kind.width();
    let split = lower_width(row);
    let mut bytes = [0u8; MAX_WIDTH];
    let opened = open_flash(layout, image);
    let lower = Place { class, at };
    let loaded = receive(layout, image, opened, lower, &mut bytes[..split]);
    if split < size {
        let upper = Place {
            class,
            at: at + split,
        };
        receive(layout, image, loaded, upper, &mut bytes[split..size]);
    }
    bytes
}

// Its value. To load a block is a write, which wants an image that is lent to be written into: a
// copy.
#[tactic(auto, using(crate::proofs::FetchLaws::copies))]
pub(crate) fn value_in(layout: Layout, image: &[u8], row: Row) -> i64
    requires { get_error layout (length image.now) row.parameter ≡ 0 }
    ensures { result ≡ value_in layout image.now row.parameter }
{
    let mut copy = [0u8; MAX_IMAGE_LENGTH];
    let n = image.len();
    copy[..n].copy_from_slice(image);
    let bytes = fetch(layout, &mut copy[..n], row);
    from_bytes(row.kind, bytes)
}

// The first commit: those of a value's bytes that lie in the lower block.
pub(crate) fn store_lower(layout: Layout, image: &mut [u8], row: Row, value: i64) -> Gauge
    requires { set_error layout (length image.old) row.parameter value ≡ 0 }
    ensures { device result image.new ≡ first_commit layout image.old row.parameter value }
{
    let place = Place {
        class: row.parameter.class,
        at: usize::from(row.parameter.offset),
    };
    let split = lower_width(row);
    let bytes = to_bytes(row.kind, value);
    let opened = open_flash(layout, image);
    send(layout, image, opened, place, &bytes[..split])
}

// Both commits: the second is of the others, in the upper block, where there are any.
pub(crate) fn store(layout: Layout, image: &mut [u8], row: Row, value: i64) -> Gauge
    requires { set_error layout (length image.old) row.parameter value ≡ 0 }
    ensures { device result image.new ≡ set_on_gauge layout image.old row.parameter value }
{
    let lower = store_lower(layout, image, row, value);
    let size = row.kind.width();
    let split = lower_width(row);
    if split < size {
        let place = Place {
            class: row.parameter.class,
            at: usize::from(row.parameter.offset) + split,
        };
        let bytes = to_bytes(row.kind, value);
        return send(layout, image, lower, place, &bytes[split..size]);
    }
    lower
}
