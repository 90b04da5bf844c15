// Whether two layouts have the same classes.
ghost use Rattle.std.specs.Prelude.{◌≡◌};
ghost use Rattle.flashrules.specs.Layout.{same_layout};

use flashrules::layout::{Layout, MAX_CLASSES};

// Whether count, identifiers and lengths are the same; what stands past the count means nothing.
#[tactic(auto, using(crate::proofs::SameLaws::sames))]
pub fn same(layout: Layout, other: Layout) -> bool
    ensures { result ≡ same_layout layout other }
{
    if layout.count != other.count {
        return false;
    }
    let n = layout.count.min(MAX_CLASSES);
    layout.ids[..n] == other.ids[..n] && layout.lengths[..n] == other.lengths[..n]
}
