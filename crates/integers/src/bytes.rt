// An integer to its bytes, and bytes to their integer.
ghost use Rattle.std.specs.Prelude.{ℕ, ◌≡◌, take, replicate};
ghost use Rattle.std.proofs.lemmas.List.Edits.{sets};
ghost use Rattle.parameterrules.specs.Integer.{to_bytes, from_bytes};
ghost use Rattle.parameterrules.specs.Kind.{max_width, width_of, is_signed};
ghost use Rattle.integers.specs.Kind.{number};

use crate::kind::Kind;
use parameterrules::kind::MAX_WIDTH;

#[tactic(auto, using(crate::proofs::ByteLaws::writes))]
fn bytes_of(kind: Kind, value: i64) -> [u8; MAX_WIDTH]
    ensures { result ≡ sets (replicate max_width 0) 0 (to_bytes (width_of (number kind)) value) }
{
    let width = kind.width();
    let mut bytes = [0u8; MAX_WIDTH];
    bytes[..width].copy_from_slice(&value.cast_unsigned().to_be_bytes()[8 - width..]);
    bytes
}

// The bytes of an integer, then zeros. Of one that does not fit its kind they are the lowest bytes,
// and of a number that is no kind there are none.
#[tactic(auto, using(crate::proofs::KindLaws::none))]
pub fn to_bytes<K: Into<u8>>(kind: K, value: i64) -> [u8; MAX_WIDTH]
    ensures { (n : ℕ) × K.converts kind n × (result ≡ sets (replicate max_width 0) 0 (to_bytes (width_of n) value)) }
{
    match Kind::try_from(kind.into()) {
        Ok(kind) => bytes_of(kind, value),
        Err(_) => [0u8; MAX_WIDTH],
    }
}

#[tactic(auto, using(crate::proofs::ByteLaws::reads))]
fn integer_of(kind: Kind, bytes: [u8; MAX_WIDTH]) -> i64
    ensures { result ≡ from_bytes (is_signed (number kind)) (take (width_of (number kind)) bytes) }
{
    match kind {
        Kind::U8 => i64::from(bytes[0]),
        Kind::U16 => i64::from(u16::from_be_bytes([bytes[0], bytes[1]])),
        Kind::U32 => i64::from(u32::from_be_bytes(bytes)),
        Kind::I8 => i64::from(i8::from_be_bytes([bytes[0]])),
        Kind::I16 => i64::from(i16::from_be_bytes([bytes[0], bytes[1]])),
        Kind::I32 => i64::from(i32::from_be_bytes(bytes)),
    }
}

// The integer that the first bytes are, as many as the kind has; 0 where the number is no kind.
#[tactic(auto, using(crate::proofs::KindLaws::none))]
pub fn from_bytes<K: Into<u8>>(kind: K, bytes: [u8; MAX_WIDTH]) -> i64
    ensures { (n : ℕ) × K.converts kind n × (result ≡ from_bytes (is_signed n) (take (width_of n) bytes)) }
{
    match Kind::try_from(kind.into()) {
        Ok(kind) => integer_of(kind, bytes),
        Err(_) => 0,
    }
}
