// A frame is run, by what is to be reported.
// Stays: layout, image and session are parameters of their own, as `flashrules::layout` says.
ghost use Rattle.std.specs.Prelude.{◌≡◌};
ghost use Rattle.flashrules.specs.Outcome.{outcome};
ghost use Rattle.scriptrules.specs.Given.{frame_given};
ghost use Rattle.scriptrules.specs.Session.{report_number, runner};
ghost use Rattle.scriptrules.specs.Run.{lend, run_frame};
ghost use Rattle.framerunner.specs.Answer.{frame_answer};

use crate::explain::explain;
use crate::reply::reply;
use flashrules::layout::Layout;
use scriptrules::answer::Answered;
use scriptrules::frame::Frame;
use scriptrules::session::{Report, Session};

// What it puts out goes into the buffer from an index on.
pub fn run_frame(
    layout: Layout,
    report: Report,
    image: &mut [u8],
    session: Session,
    frame: Frame,
    buffer: &mut [u8],
    at: usize,
) -> Answered
    ensures { outcome (frame_answer result) (lend image.new buffer.new) ≡ run_frame layout (report_number report) (runner session image.old) (frame_given frame.entry) buffer.old at }
{
    match report {
        Report::Causes => explain(layout, image, session, frame, buffer, at),
        Report::Replies => reply(layout, image, session, frame, buffer, at),
    }
}
