// A line of output where a write or a supply is refused: document 02, C-13 and C-16.
// Stays: layout, image and session are parameters of their own, as `flashrules::layout` says.
ghost use Rattle.std.specs.Prelude.{◌≡◌, length};
ghost use Rattle.std.proofs.lemmas.List.Edits.{sets};
ghost use Rattle.flashrules.specs.Outcome.{outcome};
ghost use Rattle.causerules.specs.Answer.{track_answer};
ghost use Rattle.scriptrules.specs.Given.{frame_given};
ghost use Rattle.scriptrules.specs.Frame.{supply_frame};
ghost use Rattle.scriptrules.specs.Session.{report_causes, session, runner};
ghost use Rattle.scriptrules.specs.Run.{lend, answered, run_frame};
ghost use Rattle.causerules.specs.Notes.{next_line, tracked_text};
ghost use Rattle.framerunner.specs.Answer.{frame_answer};
ghost use Rattle.framerunner.specs.Track.{track_frame};

use causerules::notes::{Notes, Tracked};
use causes::notes::next_line;
use causes::text::put_cause;
use causes::track::{track, track_supply};
use flashrules::layout::Layout;
use gaugerules::state::Gauge;
use scriptrules::answer::Answered;
use scriptrules::frame::Frame;
use scriptrules::session::Session;

// A frame is run, and its bytes are noted. A read gives no reason.
fn track_frame(
    layout: Layout,
    image: &mut [u8],
    gauge: Gauge,
    notes: Notes,
    frame: Frame,
) -> Tracked
    ensures { outcome (track_answer result) image.new ≡ track_frame layout image.old gauge notes (frame_given frame.entry) }
{
    match frame {
        Frame::Write { register, bytes } => track(layout, image, gauge, notes, register, bytes),
        Frame::Read { .. } => Tracked {
            error: None,
            gauge,
            notes,
        },
        Frame::Supply { millivolts } => track_supply(layout, image.len(), gauge, notes, millivolts),
    }
}

// What a frame came to: a line where it was refused, and the session after it.
#[tactic(auto, using(crate::proofs::ExplainLaws::explains))]
fn put_tracked(tracked: Tracked, buffer: &mut [u8], at: usize) -> Answered
    ensures value { frame_answer result ≡ answered 0 (session tracked.gauge tracked.notes) (length (tracked_text (track_answer tracked))) }
    ensures buffer_after { buffer.new ≡ sets buffer.old at (tracked_text (track_answer tracked)) }
{
    let length = put_cause(tracked, buffer, at);
    Answered {
        session: Session {
            gauge: tracked.gauge,
            notes: tracked.notes,
        },
        length,
    }
}

// A frame is run as the next line. Where it is refused, a line says why; a read puts out nothing.
pub(crate) fn explain(
    layout: Layout,
    image: &mut [u8],
    session: Session,
    frame: Frame,
    buffer: &mut [u8],
    at: usize,
) -> Answered
    ensures { outcome (frame_answer result) (lend image.new buffer.new) ≡ run_frame layout report_causes (runner session image.old) (frame_given frame.entry) buffer.old at }
{
    let notes = next_line(session.notes);
    let tracked = track_frame(layout, image, session.gauge, notes, frame);
    put_tracked(tracked, buffer, at)
}

// A supply by itself, over an image that it leaves as it is.
pub(crate) fn explain_supply(
    layout: Layout,
    image: &[u8],
    session: Session,
    millivolts: u16,
    buffer: &mut [u8],
    at: usize,
) -> Answered
    ensures { outcome (frame_answer result) (lend image.now buffer.new) ≡ run_frame layout report_causes (runner session image.now) (supply_frame millivolts) buffer.old at }
{
    let notes = next_line(session.notes);
    let tracked = track_supply(layout, image.len(), session.gauge, notes, millivolts);
    put_tracked(tracked, buffer, at)
}

// A read by itself: a line, of which nothing is put out.
pub(crate) fn explain_read(before: Session) -> Answered
    ensures { frame_answer result ≡ answered 0 (session before.gauge (next_line before.notes)) 0 }
{
    Answered {
        session: Session {
            notes: next_line(before.notes),
            ..before
        },
        length: 0,
    }
}
