// Layouts: which classes an image has, in which order and how long. A layout is plain numbers, so a
// broken one can be passed to every function; `valid` is the test that the others rest on.
ghost use Rattle.std.specs.Prelude.{◌≡◌};
ghost use Rattle.flashrules.specs.Layout.{classes, in_order, ordered, size, length_in, has_fixed_classes, valid, fits};

use crate::entry::entries;
use crate::lookup::locate;
use flashrules::layout::{
    INFO_CLASS, INFO_LENGTH, KEY_CLASS, Layout, MAX_CLASS_LENGTH, MAX_CLASSES, MAX_IMAGE_LENGTH,
    MIN_KEY_LENGTH,
};

// Whether one entry keeps the identifiers ascending, its own being at least `lo`, and has a length
// in range.
fn in_order(lo: usize, id: usize, len: usize) -> bool
    ensures { result ≡ in_order lo (record { id = id; len = len }) }
{
    lo <= id && 1 <= len && len <= MAX_CLASS_LENGTH
}

// Whether the identifiers ascend and each length is in range.
#[tactic(auto, using(crate::proofs::EntryLaws::left_none))]
fn ordered(layout: &Layout) -> bool
    ensures { result ≡ ordered 0 (classes layout.now) }
{
    let mut lo: usize = 0;
    for (id, len) in entries(layout) {
        let id = usize::from(*id);
        if !in_order(lo, id, usize::from(*len)) {
            return false;
        }
        lo = id + 1;
    }
    true
}

// How many bytes the classes have together.
#[tactic(auto, using(crate::proofs::EntryLaws::left_none))]
fn size(layout: &Layout) -> usize
    ensures { result ≡ size layout.now }
{
    let mut sum: usize = 0;
    for (_, len) in entries(layout) {
        sum += usize::from(*len);
    }
    sum
}

// How long a class is, 0 where there is none.
// Stays: 0 and no Option, as the rule has it. It is compared with lengths, and never 0 itself.
fn length_in(layout: &Layout, class: u8) -> usize
    ensures { result ≡ length_in layout.now class }
{
    match locate(layout, class) {
        Ok(place) => place.len,
        Err(_) => 0,
    }
}

// Whether the two classes that every layout has are there, as long as they must be.
fn has_fixed_classes(layout: &Layout) -> bool
    ensures { result ≡ has_fixed_classes layout.now }
{
    length_in(layout, INFO_CLASS) == INFO_LENGTH && MIN_KEY_LENGTH <= length_in(layout, KEY_CLASS)
}

// Whether a layout keeps document 01's rules.
#[tactic(auto, unfolding(flashrules::specs::Layout::valid))]
pub fn valid(layout: Layout) -> bool
    ensures { result ≡ valid layout }
{
    1 <= layout.count
        && layout.count <= MAX_CLASSES
        && ordered(&layout)
        && size(&layout) <= MAX_IMAGE_LENGTH
        && has_fixed_classes(&layout)
}

// Whether an image of so many bytes goes with the layout.
#[tactic(auto, unfolding(flashrules::specs::Layout::fits))]
pub fn fits(layout: Layout, image_len: usize) -> bool
    ensures { result ≡ fits layout image_len }
{
    valid(layout) && image_len == size(&layout)
}
