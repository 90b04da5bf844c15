// In how many places two byte strings differ. Every byte is looked at, whatever the ones before it.
ghost use Rattle.std.specs.Prelude.{◌≡◌, count_by, eqb, not};
ghost use Rattle.std.specs.List.{zip};
ghost use Rattle.flashrules.specs.Choice.{differing};

// Among the places that both of them have.
fn differing_pairs(a: &[u8], b: &[u8]) -> usize
    ensures { result ≡ count_by (λ p. not (eqb p.0 p.1)) (zip a.now b.now) }
{
    a.iter().zip(b).filter(|(x, y)| x != y).count()
}

// A place that only one of them has is one in which they differ.
#[tactic(auto, using(crate::proofs::CountLaws::counts))]
pub fn differing(a: &[u8], b: &[u8]) -> usize
    ensures { result ≡ differing a.now b.now }
{
    differing_pairs(a, b) + a.len().abs_diff(b.len())
}
