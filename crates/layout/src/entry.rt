// The entries of a layout as numbers to be added up.
ghost use Rattle.std.specs.Prelude.{◌≡◌, ◌<◌, ◌≤◌, length, get_or};
ghost use Rattle.flashrules.specs.Layout.{max_classes, classes};
ghost use Rattle.layout.specs.Entries.{entries_left};

use flashrules::layout::Layout;
use std::iter::{Take, Zip};
use std::slice::Iter;

// The entries in use, each an identifier and a length.
#[tactic(auto, using(crate::proofs::EntryLaws::starts))]
pub fn entries(layout: &Layout) -> Take<Zip<Iter<'_, u8>, Iter<'_, u16>>>
    ensures left { entries_left result ≡ classes layout.now }
    ensures few { length (entries_left result) ≤ max_classes }
{
    layout.ids.iter().zip(&layout.lengths).take(layout.count)
}

// How many bytes the class with an index has, 0 past the last entry.
pub fn length_at(layout: Layout, k: usize) -> usize
    ensures { (result ≡ get_or layout.lengths k 0) × (result < 65536) }
{
    match layout.lengths.get(k) {
        Some(len) => usize::from(*len),
        None => 0,
    }
}
