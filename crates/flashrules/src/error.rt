// Document 01's refusals ("Numbers of the refusals"), in the order of its table, and behind them
// those of document 02.
ghost use Rattle.std.specs.Prelude.{◌≡◌};
ghost use Rattle.flashrules.specs.Error.{number, number_or_none};

#[derive(Clone, Copy, Debug, PartialEq, Eq, Hash)]
pub enum Error {
    // A transaction without a count or with a span past the last register, or a supply above its
    // range.
    InvalidArgument = 1,
    ReadOnly = 2,
    // A register that a sealed gauge refuses.
    SealedRegister = 3,
    UnknownClass = 4,
    UnknownBlock = 5,
    NothingLoaded = 6,
    // Block A of a sealed gauge.
    ProtectedBlock = 7,
    WrongChecksum = 8,
    InvalidControl = 9,
    // A file, a script or a layout breaks its rules, or an image is not as long as its layout.
    Malformed = 10,
    InvalidParameter = 11,
    // A parameter whose bytes leave its class.
    MisplacedParameter = 12,
    // A value to be set that its parameter's range has not.
    OutOfRange = 13,
    // The lent buffer is shorter than the answer.
    ShortBuffer = 14,
    InvalidGauge = 15,
    // A commit that would change a key, without full access.
    ProtectedKeys = 16,
    // A commit on a supply that is too low for one.
    LowSupply = 17,
    // Two images whose layouts have other classes or lengths.
    LayoutMismatch = 18,
}

impl Error {
    // The number that the papers give it.
    pub fn number(self) -> u8
        ensures { result ≡ number self }
    {
        self as u8
    }
}

// Its number, so that what takes any number takes a refusal too.
impl From<Error> for u8 {
    ghost from_gives = { λ e n. n ≡ number e };

    fn from(error: Error) -> u8 {
        error.number()
    }
}

// The number that stands in a reply: 0 where nothing was refused.
pub fn number_of(error: Option<Error>) -> u8
    ensures { result ≡ number_or_none error }
{
    match error {
        Some(e) => e.number(),
        None => 0,
    }
}
