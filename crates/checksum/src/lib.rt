// The checksum of a block (document 01, "Checksum"): 255 less the low eight bits of the sum of its
// bytes, and the same after one byte has changed. The sum wraps at 256 by intent.
#![tactic(auto)]

ghost use Rattle.std.specs.Prelude.{◌≡◌, ◌+◌, ◌%◌, fold};
ghost use Rattle.checksum.specs.Checksum.{checksum, checksum_after};

// The low eight bits of the sum.
fn low_sum(bytes: &[u8]) -> u8
    ensures { result ≡ fold (λ sum byte. (sum + byte) % 256) 0 bytes.now }
{
    bytes.iter().fold(0u8, |sum, byte| sum.wrapping_add(*byte))
}

// The long way, over any number of bytes.
#[tactic(auto, using(crate::proofs::ChecksumLaws::low_total))]
pub fn checksum(bytes: &[u8]) -> u8
    ensures { result ≡ checksum bytes.now }
{
    255 - low_sum(bytes)
}

// The short way: the checksum once a byte `old` of the block has become `new`.
pub fn checksum_after(sum: u8, old: u8, new: u8) -> u8
    ensures { result ≡ checksum_after sum old new }
{
    let rest = (255 - sum).wrapping_sub(old);
    255 - rest.wrapping_add(new)
}
