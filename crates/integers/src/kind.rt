// The kinds of a parameter: unsigned, or in two's complement, of 1, 2 or 4 bytes. A row has the
// number of its kind, which a kind may have or not.
ghost use Rattle.std.specs.Prelude.{◌≡◌, ◌≤◌};
ghost use Rattle.parameterrules.specs.Kind.{max_width, width_of, is_signed, holds};
ghost use Rattle.integers.specs.Kind.{number, kind_of, kind_result};

use flashrules::error::Error;
use parameterrules::kind::SIGNED_BIT;

// How many bytes, and 0x80 besides if it is in two's complement. 0 is no kind, so that a row which
// was never filled in is invalid.
#[derive(Clone, Copy, Debug, PartialEq, Eq)]
pub enum Kind {
    U8 = 1,
    U16 = 2,
    U32 = 4,
    I8 = 0x81,
    I16 = 0x82,
    I32 = 0x84,
}

impl TryFrom<u8> for Kind {
    type Error = Error;

    ghost try_from_gives = { λ n r. r ≡ kind_result (kind_of n) };

    fn try_from(number: u8) -> Result<Kind, Error> {
        match number {
            0x01 => Ok(Kind::U8),
            0x02 => Ok(Kind::U16),
            0x04 => Ok(Kind::U32),
            0x81 => Ok(Kind::I8),
            0x82 => Ok(Kind::I16),
            0x84 => Ok(Kind::I32),
            _ => Err(Error::InvalidParameter),
        }
    }
}

// Its number, so that what takes any number takes a kind too.
impl From<Kind> for u8 {
    ghost from_gives = { λ k n. n ≡ number k };

    fn from(kind: Kind) -> u8 {
        kind.number()
    }
}

impl Kind {
    pub fn number(self) -> u8
        ensures { result ≡ number self }
    {
        self as u8
    }

    // How many bytes a value has.
    #[tactic(auto, unfolding(parameterrules::specs::Kind::width_of))]
    pub fn width(self) -> usize
        ensures value { result ≡ width_of (number self) }
        ensures lower_bound { 1 ≤ result }
        ensures upper_bound { result ≤ max_width }
    {
        match self {
            Kind::U8 | Kind::I8 => 1,
            Kind::U16 | Kind::I16 => 2,
            Kind::U32 | Kind::I32 => 4,
        }
    }

    #[tactic(auto, unfolding(parameterrules::specs::Kind::is_signed))]
    pub fn signed(self) -> bool
        ensures { result ≡ is_signed (number self) }
    {
        matches!(self, Kind::I8 | Kind::I16 | Kind::I32)
    }

    // Whether it holds an integer.
    #[tactic(auto, using(crate::proofs::ByteLaws::held))]
    pub fn holds(self, value: i64) -> bool
        ensures { result ≡ holds (number self) value }
    {
        match self {
            Kind::U8 => u8::try_from(value).is_ok(),
            Kind::U16 => u16::try_from(value).is_ok(),
            Kind::U32 => u32::try_from(value).is_ok(),
            Kind::I8 => i8::try_from(value).is_ok(),
            Kind::I16 => i16::try_from(value).is_ok(),
            Kind::I32 => i32::try_from(value).is_ok(),
        }
    }
}

// The same of any number: how many bytes a kind has, 0 where the number is no kind.
#[tactic(auto, using(crate::proofs::KindLaws::none))]
pub fn width(kind: u8) -> usize
    ensures value { result ≡ width_of kind }
    ensures upper_bound { result ≤ max_width }
{
    match Kind::try_from(kind) {
        Ok(kind) => kind.width(),
        Err(_) => 0,
    }
}

#[tactic(auto, unfolding(parameterrules::specs::Kind::is_signed))]
pub fn signed(kind: u8) -> bool
    ensures { result ≡ is_signed kind }
{
    SIGNED_BIT <= kind
}

// What is no kind has no bytes: without a sign they hold 0, with one nothing.
#[tactic(auto, using(crate::proofs::KindLaws::none))]
pub fn holds(kind: u8, value: i64) -> bool
    ensures { result ≡ holds kind value }
{
    match Kind::try_from(kind) {
        Ok(kind) => kind.holds(value),
        Err(_) => match value {
            0 => !signed(kind),
            _ => false,
        },
    }
}
