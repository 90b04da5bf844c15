// Where a byte first stands in a part of a text.
ghost use Rattle.std.specs.Prelude.{◌≡◌, ◌+◌, ◌≤◌, slice_range, position, eqb};
ghost use Rattle.hextext.specs.Scan.{index_of};

// The index of the first `byte`, if there is one.
fn first_index(text: &[u8], byte: u8) -> Option<usize>
    ensures { result ≡ position (λ c. eqb c byte) text.now }
{
    text.iter().position(|c| *c == byte)
}

// The index of the first `byte` from an index on and before another; where there is none, the index
// behind the last one that was looked at.
// Stays: an index and no Option. Callers go on at it either way: a text that ends is a line's end.
#[tactic(auto, using(crate::proofs::ScanLaws::finds))]
pub fn find(text: &[u8], from: usize, to: usize, byte: u8) -> usize
    ensures value { result ≡ from + index_of byte (slice_range text.now from to) }
    ensures within { from ≤ to → result ≤ to }
{
    let Some(part) = text.get(from..to.min(text.len())) else {
        return from;
    };
    from + first_index(part, byte).unwrap_or(part.len())
}
