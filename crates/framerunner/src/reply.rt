// Reply lines in a lent buffer.
// Stays: layout, image and session are parameters of their own, as `flashrules::layout` says.
// Stays: a place beside the buffer, as in `hextext`.
ghost use Rattle.std.specs.Prelude.{◌≡◌, ◌∷◌, ◌%◌, ◌≤◌, length};
ghost use Rattle.std.proofs.lemmas.List.Edits.{sets};
ghost use Rattle.hextext.specs.Hex.{hex_line};
ghost use Rattle.flashrules.specs.Outcome.{outcome};
ghost use Rattle.gaugerules.specs.Answer.{read_answer};
ghost use Rattle.gaugerules.specs.Read.{read};
ghost use Rattle.scriptrules.specs.Frame.{write_frame, read_frame, supply_frame};
ghost use Rattle.scriptrules.specs.Given.{frame_given};
ghost use Rattle.scriptrules.specs.Session.{report_replies, runner};
ghost use Rattle.scriptrules.specs.Run.{lend, run_frame};
ghost use Rattle.framerunner.specs.Answer.{frame_answer};

use flashrules::error::{Error, number_of};
use flashrules::layout::Layout;
use gauge::read::read;
use gauge::write::write;
use gaugerules::register::REGISTERS;
use gaugerules::state::Gauge;
use hextext::{encode_byte, encode_line};
use scriptrules::answer::Answered;
use scriptrules::frame::Frame;
use scriptrules::session::Session;
use supply::set_supply;

// A byte and bytes as a line, from an index on.
#[tactic(auto, using(crate::proofs::PutLaws::put_lines))]
fn put_line(first: u8, rest: &[u8], buffer: &mut [u8], at: usize)
    ensures { buffer.new ≡ sets buffer.old at (hex_line (first ∷ rest.now)) }
{
    if at < buffer.len() {
        encode_byte(first, buffer, at);
        encode_line(rest, buffer, at + 2);
    }
}

// What a reply has room for of a count.
fn low_byte(n: usize) -> u8
    ensures { result ≡ n % 256 }
{
    (n % 256) as u8
}

// A write frame is run, and replied to.
#[tactic(auto, using(crate::proofs::PutLaws::writes))]
fn reply_write(
    layout: Layout,
    image: &mut [u8],
    session: Session,
    register: u8,
    bytes: &[u8],
    buffer: &mut [u8],
    at: usize,
) -> Answered
    ensures { outcome (frame_answer result) (lend image.new buffer.new) ≡ run_frame layout report_replies (runner session image.old) (write_frame register bytes.now) buffer.old at }
{
    let written = write(layout, image, session.gauge, register, bytes);
    let accepted = low_byte(written.accepted);
    let changed = low_byte(written.changed);
    encode_line(&[number_of(written.error), accepted, changed], buffer, at);
    Answered {
        session: Session {
            gauge: written.gauge,
            ..session
        },
        length: 7,
    }
}

// The registers that a read frame asks for; no more than the buffer has bytes.
#[tactic(auto, using(crate::proofs::PutLaws::reads))]
fn read_registers(
    layout: Layout,
    image: &[u8],
    gauge: Gauge,
    register: u8,
    count: u8,
    values: &mut [u8],
) -> Result<usize, Error>
    ensures values_after { outcome (read_answer result) values.new ≡ read layout image.now gauge register count values.old }
    ensures accepted_in_bounds { (read_answer result).accepted ≤ length values.old }
{
    read(layout, image, gauge, register, usize::from(count), values)
}

// A read frame is run, and replied to.
#[tactic(auto, using(crate::proofs::PutLaws::reads))]
pub(crate) fn reply_read(
    layout: Layout,
    image: &[u8],
    session: Session,
    register: u8,
    count: u8,
    buffer: &mut [u8],
    at: usize,
) -> Answered
    ensures { outcome (frame_answer result) (lend image.now buffer.new) ≡ run_frame layout report_replies (runner session image.now) (read_frame register count) buffer.old at }
{
    let mut values = [0u8; REGISTERS];
    let length = match read_registers(layout, image, session.gauge, register, count, &mut values) {
        Ok(n) => {
            put_line(0, &values[..n], buffer, at);
            3 + 2 * n
        }
        Err(error) => {
            encode_line(&[error.number()], buffer, at);
            3
        }
    };
    Answered { session, length }
}

// A supply frame is run, and replied to.
#[tactic(auto, using(crate::proofs::PutLaws::supplies))]
pub(crate) fn reply_supply(
    layout: Layout,
    image: &[u8],
    session: Session,
    millivolts: u16,
    buffer: &mut [u8],
    at: usize,
) -> Answered
    ensures { outcome (frame_answer result) (lend image.now buffer.new) ≡ run_frame layout report_replies (runner session image.now) (supply_frame millivolts) buffer.old at }
{
    let supplied = set_supply(layout, image.len(), session.gauge, millivolts);
    encode_line(&[number_of(supplied.err())], buffer, at);
    Answered {
        session: Session {
            gauge: supplied.unwrap_or(session.gauge),
            ..session
        },
        length: 3,
    }
}

// A frame is run, and replied to.
pub(crate) fn reply(
    layout: Layout,
    image: &mut [u8],
    session: Session,
    frame: Frame,
    buffer: &mut [u8],
    at: usize,
) -> Answered
    ensures { outcome (frame_answer result) (lend image.new buffer.new) ≡ run_frame layout report_replies (runner session image.old) (frame_given frame.entry) buffer.old at }
{
    match frame {
        Frame::Write { register, bytes } => {
            reply_write(layout, image, session, register, bytes, buffer, at)
        }
        Frame::Read { register, count } => {
            reply_read(layout, &image[..], session, register, count, buffer, at)
        }
        Frame::Supply { millivolts } => {
            reply_supply(layout, &image[..], session, millivolts, buffer, at)
        }
    }
}
