// A write whose bytes are noted, run as `gauge::write::write` runs it, byte by byte; and a supply.
// Stays: layout, image and gauge are parameters of their own, as `flashrules::layout` says.
ghost use Rattle.std.specs.Prelude.{◌≡◌};
ghost use Rattle.flashrules.specs.Outcome.{outcome};
ghost use Rattle.causerules.specs.Answer.{track_answer};
ghost use Rattle.causerules.specs.Notes.{track, track_supply};
ghost use Rattle.causes.specs.Track.{track_bytes};

use crate::notes::note;
use causerules::notes::{Notes, Tracked};
use flashrules::layout::Layout;
use gauge::write::{check_call, write_byte};
use gaugerules::state::Gauge;
use supply::set_supply;

// The bytes from a register on.
#[tactic(auto, using(crate::proofs::TrackLaws::turns))]
fn track_bytes(
    layout: Layout,
    image: &mut [u8],
    gauge: Gauge,
    notes: Notes,
    register: u8,
    bytes: &[u8],
) -> Tracked
    ensures { outcome (track_answer result) image.new ≡ track_bytes layout image.old gauge notes register bytes.now }
{
    let mut next = gauge;
    let mut noted = notes;
    for (i, byte) in bytes.iter().enumerate() {
        let at = usize::from(register) + i;
        match write_byte(layout, image, next, at, *byte) {
            Ok(written) => {
                noted = note(noted, at, next, written.gauge);
                next = written.gauge;
            }
            Err(error) => {
                return Tracked {
                    error: Some(error),
                    gauge: next,
                    notes: noted,
                };
            }
        }
    }
    Tracked {
        error: None,
        gauge: next,
        notes: noted,
    }
}

// Writes bytes at a register and those after it, as the line that the notes say.
#[tactic(auto, using(crate::proofs::TrackLaws::checked))]
pub fn track(
    layout: Layout,
    image: &mut [u8],
    gauge: Gauge,
    notes: Notes,
    register: u8,
    bytes: &[u8],
) -> Tracked
    ensures { outcome (track_answer result) image.new ≡ track layout image.old gauge notes register bytes.now }
{
    if let Err(error) = check_call(layout, image.len(), gauge, register, bytes.len()) {
        return Tracked {
            error: Some(error),
            gauge,
            notes,
        };
    }
    track_bytes(layout, image, gauge, notes, register, bytes)
}

// Sets the supply, as the line that the notes say. It gives no reason, so nothing is noted.
#[tactic(auto, unfolding(causerules::specs::Notes::track_supply))]
pub fn track_supply(
    layout: Layout,
    image_len: usize,
    gauge: Gauge,
    notes: Notes,
    millivolts: u16,
) -> Tracked
    ensures { track_answer result ≡ track_supply layout image_len gauge notes millivolts }
{
    match set_supply(layout, image_len, gauge, millivolts) {
        Ok(supplied) => Tracked {
            error: None,
            gauge: supplied,
            notes,
        },
        Err(error) => Tracked {
            error: Some(error),
            gauge,
            notes,
        },
    }
}
