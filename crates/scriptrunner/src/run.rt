// Frames are run in a session, over its image, and what they put out goes into a lent buffer: a
// line at a time, or all whole lines of a text.
// Stays: layout, image and session are parameters of their own, as `flashrules::layout` says.
ghost use Rattle.std.specs.Prelude.{ℕ, ◌≡◌, true, ◌-◌, ◌≤◌, length, replicate};
ghost use Rattle.std.proofs.lemmas.List.Edits.{sets};
ghost use Rattle.hextext.specs.Hex.{unhex};
ghost use Rattle.flashrules.specs.Error.{number_of};
ghost use Rattle.flashrules.specs.Outcome.{outcome};
ghost use Rattle.scriptrules.specs.Answer.{line_answer, run_answer};
ghost use Rattle.scriptrules.specs.Frame.{max_frame, frame_of};
ghost use Rattle.scriptrules.specs.Given.{frame_given};
ghost use Rattle.scriptrules.specs.Parser.{is_frame};
ghost use Rattle.scriptrules.specs.Run.{lend, line_error, run_line, run};

use flashrules::error::Error;
use flashrules::layout::Layout;
use framerunner::frame::run_frame;
use hextext::scan::find;
use hextext::{LINE_FEED, decode};
use scriptparser::is_frame;
use scriptrules::answer::{Answered, MAX_REPLY, Progress};
use scriptrules::frame::Frame;
use scriptrules::parser::{MAX_FRAME, READ, SUPPLY};
use scriptrules::session::{Report, Session};

// Whether a line is run; the buffer has so many bytes.
#[tactic(auto, using(crate::proofs::LoopLaws::line_errors))]
fn check_line(line: &[u8], buffer_len: usize, at: usize) -> Result<(), Error>
    ensures { number_of result ≡ line_error line.now (buffer_len - at) }
{
    if !is_frame(line) {
        Err(Error::Malformed)
    } else if buffer_len.saturating_sub(at) < MAX_REPLY {
        Err(Error::ShortBuffer)
    } else {
        Ok(())
    }
}

// The frame of a line whose bytes stand in front of zeros.
#[tactic(auto, using(crate::proofs::DecodeLaws::decodes))]
fn frame_in<'a>(line: &[u8], bytes: &'a [u8; MAX_FRAME]) -> Frame<'a>
    requires is_frame { is_frame line.now ≡ true }
    requires decoded { bytes.now ≡ sets (replicate max_frame 0) 0 (unhex line.now) }
    ensures { frame_given result ≡ frame_of line.now }
{
    match bytes[0] {
        READ => Frame::Read {
            register: bytes[1],
            count: bytes[2],
        },
        SUPPLY => Frame::Supply {
            millivolts: u16::from_be_bytes([bytes[1], bytes[2]]),
        },
        _ => Frame::Write {
            register: bytes[1],
            bytes: &bytes[2..line.len() / 2],
        },
    }
}

// One line, without its line feed, is run; what it puts out goes into the buffer from an index on.
// A refused line alters nothing.
#[tactic(auto, using(crate::proofs::LoopLaws::one_line))]
pub fn run_line<P: Into<u8>>(
    layout: Layout,
    report: P,
    image: &mut [u8],
    session: Session,
    line: &[u8],
    buffer: &mut [u8],
    at: usize,
) -> Result<Answered, Error>
    ensures buffer_after { (n : ℕ) × P.converts report n × (outcome (line_answer session result) (lend image.new buffer.new) ≡ run_line layout n image.old session line.now buffer.old at) }
    ensures length_in_bounds { (line_answer session result).length ≤ length buffer.old - at }
{
    let report = Report::from(report.into());
    check_line(line, buffer.len(), at)?;
    let mut bytes = [0u8; MAX_FRAME];
    decode(line, &mut bytes, 0);
    let frame = frame_in(line, &bytes);
    Ok(run_frame(layout, report, image, session, frame, buffer, at))
}

// The whole lines of a text are run, until one is refused; what they put out is at the front of the
// buffer. 14 says that the buffer has no room for one more: the caller goes on behind `next` with
// another.
#[tactic(auto, using(crate::proofs::LoopLaws::lines))]
pub fn run<P: Into<u8>>(
    layout: Layout,
    report: P,
    image: &mut [u8],
    session: Session,
    text: &[u8],
    buffer: &mut [u8],
) -> Progress
    ensures buffer_after { (n : ℕ) × P.converts report n × (outcome (run_answer result) (lend image.new buffer.new) ≡ run layout n image.old session text.now buffer.old) }
    ensures next_in_bounds { (result.next ≤ length text.now) × (result.length ≤ length buffer.old) }
{
    let number: u8 = report.into();
    let mut progress = Progress {
        error: None,
        session,
        next: 0,
        length: 0,
    };
    // Stays: it goes on by a line, and not by an index. Where a line begins is answered, so an
    // iterator over lines would need it counted beside.
    while progress.next < text.len() {
        let from = progress.next;
        let end = find(text, from, text.len(), LINE_FEED);
        if text.len() <= end {
            return progress;
        }
        let line = &text[from..end];
        let used = progress.length;
        match run_line(layout, number, image, progress.session, line, buffer, used) {
            Ok(answered) => {
                progress = Progress {
                    error: None,
                    session: answered.session,
                    next: end + 1,
                    length: used + answered.length,
                };
            }
            Err(error) => {
                return Progress {
                    error: Some(error),
                    ..progress
                };
            }
        }
    }
    progress
}
