// A write, a read and a supply by themselves, by the number of what is to be reported. A read and a
// supply leave the image as it is, so they are lent it only to be read.
ghost use Rattle.std.specs.Prelude.{◌≡◌};
ghost use Rattle.flashrules.specs.Outcome.{outcome};
ghost use Rattle.scriptrules.specs.Frame.{write_frame, read_frame, supply_frame};
ghost use Rattle.scriptrules.specs.Session.{runner};
ghost use Rattle.scriptrules.specs.Run.{lend, run_frame};
ghost use Rattle.framerunner.specs.Answer.{frame_answer};

use crate::explain::{explain_read, explain_supply};
use crate::frame::run_frame;
use crate::reply::{reply_read, reply_supply};
use flashrules::layout::Layout;
use scriptrules::answer::Answered;
use scriptrules::frame::Frame;
use scriptrules::session::{Report, Session};

pub fn run_write(
    layout: Layout,
    report: u8,
    image: &mut [u8],
    session: Session,
    register: u8,
    bytes: &[u8],
    buffer: &mut [u8],
    at: usize,
) -> Answered
    ensures { outcome (frame_answer result) (lend image.new buffer.new) ≡ run_frame layout report (runner session image.old) (write_frame register bytes.now) buffer.old at }
{
    let report = Report::from(report);
    let frame = Frame::Write { register, bytes };
    run_frame(layout, report, image, session, frame, buffer, at)
}

pub fn run_read(
    layout: Layout,
    report: u8,
    image: &[u8],
    session: Session,
    register: u8,
    count: u8,
    buffer: &mut [u8],
    at: usize,
) -> Answered
    ensures { outcome (frame_answer result) (lend image.now buffer.new) ≡ run_frame layout report (runner session image.now) (read_frame register count) buffer.old at }
{
    match Report::from(report) {
        Report::Causes => explain_read(session),
        Report::Replies => reply_read(layout, image, session, register, count, buffer, at),
    }
}

pub fn run_supply(
    layout: Layout,
    report: u8,
    image: &[u8],
    session: Session,
    millivolts: u16,
    buffer: &mut [u8],
    at: usize,
) -> Answered
    ensures { outcome (frame_answer result) (lend image.now buffer.new) ≡ run_frame layout report (runner session image.now) (supply_frame millivolts) buffer.old at }
{
    match Report::from(report) {
        Report::Causes => explain_supply(layout, image, session, millivolts, buffer, at),
        Report::Replies => reply_supply(layout, image, session, millivolts, buffer, at),
    }
}
