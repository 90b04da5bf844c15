// What a refusal goes back to.
ghost use Rattle.std.specs.Prelude.{ℕ, ◌≡◌};
ghost use Rattle.causerules.specs.Cause.{reason_of};

use causerules::reason::Reason;
use flashrules::error::Error;
use gaugerules::state::Gauge;
use gaugestate::state::general_access;

const SEALED_REGISTER: u8 = Error::SealedRegister as u8;

const NOTHING_LOADED: u8 = Error::NothingLoaded as u8;

const PROTECTED_BLOCK: u8 = Error::ProtectedBlock as u8;

const UNKNOWN_CLASS: u8 = Error::UnknownClass as u8;

const UNKNOWN_BLOCK: u8 = Error::UnknownBlock as u8;

const WRONG_CHECKSUM: u8 = Error::WrongChecksum as u8;

// Of a refusal or of any number, with the gauge that the refused byte met. A number that no refusal
// has goes back to the line itself.
#[tactic(auto, unfolding(causerules::specs::Cause::reason_of))]
pub fn reason_of<E: Into<u8>>(error: E, gauge: Gauge) -> Reason
    ensures { (n : ℕ) × E.converts error n × (result ≡ reason_of n gauge) }
{
    match error.into() {
        SEALED_REGISTER => Reason::Sealed,
        NOTHING_LOADED => Reason::NothingLoaded,
        PROTECTED_BLOCK => Reason::Protected,
        UNKNOWN_CLASS => Reason::Class,
        UNKNOWN_BLOCK if general_access(gauge) => Reason::Class,
        WRONG_CHECKSUM => Reason::Window,
        _ => Reason::Itself,
    }
}
