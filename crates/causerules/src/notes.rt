// What is noted of a script's history, so that it need not be kept.
ghost use Rattle.std.specs.Prelude.{◌≡◌};
ghost use Rattle.causerules.specs.Answer.{track_answer};

use flashrules::error::{Error, number_of};
use gaugerules::state::Gauge;

// How many lines a script may have, so that four bytes can count them.
pub const MAX_LINES: u32 = 0xFFFFFFFF;

// The number of the line that is run, from 1 on, and for each reason the line of the latest byte
// that gave it, 0 where none did.
// Stays: no Options. Lines count from 1, and what `why` prints of none is 0 (`recall`).
#[repr(C)]
#[derive(Clone, Copy)]
pub struct Notes {
    pub line: u32,
    pub sealed: u32,
    pub unloaded: u32,
    pub protected: u32,
    pub class: u32,
    pub window: u32,
}

// After a write whose bytes were noted, or a supply: why it was refused, if it was, the gauge, and
// what is noted now.
#[derive(Clone, Copy)]
pub struct Tracked {
    pub error: Option<Error>,
    pub gauge: Gauge,
    pub notes: Notes,
}

// The same with a number: document 01's, and 0 where nothing was refused; but any number may stand
// in it.
#[derive(Clone, Copy)]
pub struct TrackAnswer {
    pub error: u8,
    pub gauge: Gauge,
    pub notes: Notes,
}

impl From<Tracked> for TrackAnswer {
    ghost from_gives = { λ t a. a ≡ track_answer t };

    fn from(tracked: Tracked) -> TrackAnswer {
        TrackAnswer {
            error: number_of(tracked.error),
            gauge: tracked.gauge,
            notes: tracked.notes,
        }
    }
}
