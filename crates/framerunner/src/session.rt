// A session before the first line of a script.
ghost use Rattle.std.specs.Prelude.{◌≡◌};
ghost use Rattle.causerules.specs.Notes.{blank};
ghost use Rattle.scriptrules.specs.Session.{session};

use causes::notes::blank;
use gaugerules::state::Gauge;
use scriptrules::session::Session;

// With a gauge; nothing is noted.
pub fn begin(gauge: Gauge) -> Session
    ensures { result ≡ session gauge blank }
{
    Session {
        gauge,
        notes: blank(),
    }
}
