// How far two byte strings agree, or differ.
ghost use Rattle.std.specs.Prelude.{◌≡◌, ◌+◌, ◌≤◌, length, drop};
ghost use Rattle.delta.specs.Span.{span};

use crate::pair::Pair;

// The end of the span that begins at an index: the bytes of both strings are equal there if `equal`
// is true, and differ if it is false.
#[tactic(auto, using(crate::proofs::SpanLaws::spans))]
pub(crate) fn span_end(pair: Pair, from: usize, equal: bool) -> usize
    requires { from ≤ length pair.old.now }
    ensures value { result ≡ from + span equal (drop from pair.entry.old.now) (drop from pair.entry.new.now) }
    ensures lower_bound { (from ≤ result) × (result ≤ length pair.entry.old.now) }
{
    // Stays: with zip and position the proof of this contract did not close.
    for i in from..pair.len() {
        if (pair.old[i] == pair.new[i]) != equal {
            return i;
        }
    }
    pair.len()
}
