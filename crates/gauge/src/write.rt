// A write: its bytes one by one at the register, the next and so on, until one is refused. A
// refused byte alters neither gauge nor image; the bytes before it stand, and what a commit among
// them changed is answered.
ghost use Rattle.std.specs.Prelude.{◌≡◌, ◌≤◌, length};
ghost use Rattle.flashrules.specs.Error.{number_of};
ghost use Rattle.flashrules.specs.Outcome.{outcome};
ghost use Rattle.gaugerules.specs.Register.{registers};
ghost use Rattle.gaugerules.specs.Answer.{byte_answer, write_answer};
ghost use Rattle.gaugerules.specs.Write.{write_byte, write_bytes, bad_span, call_error, write};

use crate::register::decode;
use blockcommit::commit;
use blocktransfer::{accept, edit, select_block, set_class, set_control};
use controlword::take_high;
use flashrules::error::Error;
use flashrules::layout::Layout;
use gaugerules::answer::{ByteWritten, Written};
use gaugerules::register::{REGISTERS, Register};
use gaugerules::state::Gauge;
use gaugestate::entry::check_entry;

// One byte at a register. It asks nothing of layout, image and gauge, which `check_call` looks at.
#[tactic(auto, using(crate::proofs::WriteLaws::at_register))]
pub fn write_byte(
    layout: Layout,
    image: &mut [u8],
    gauge: Gauge,
    register: usize,
    byte: u8,
) -> Result<ByteWritten, Error>
    ensures { outcome (byte_answer gauge result) image.new ≡ write_byte layout image.old gauge register byte }
{
    match decode(register) {
        Register::ControlLow => accept(Gauge { low: byte, ..gauge }),
        Register::ControlHigh => accept(take_high(layout, &image[..], gauge, byte)),
        Register::DataFlashClass => set_class(gauge, byte),
        Register::DataFlashBlock => select_block(layout, &image[..], gauge, byte),
        Register::BlockData(k) => edit(gauge, k, byte),
        Register::BlockDataChecksum => commit(layout, image, gauge, byte),
        Register::BlockDataControl => set_control(gauge, byte),
        Register::Other => Err(Error::ReadOnly),
    }
}

// Whether no such registers are there: none asked for, or some past the last.
#[tactic(auto, unfolding(gaugerules::specs::Write::bad_span))]
fn bad_span(register: u8, count: usize) -> bool
    ensures { result ≡ bad_span register count }
{
    count == 0 || REGISTERS < count || REGISTERS < usize::from(register) + count
}

// Whether the bytes of a transaction are looked at; the image has so many bytes.
#[tactic(auto, unfolding(gaugerules::specs::Write::call_error))]
pub fn check_call(
    layout: Layout,
    image_len: usize,
    gauge: Gauge,
    register: u8,
    count: usize,
) -> Result<(), Error>
    ensures { number_of result ≡ call_error layout image_len gauge register count }
{
    check_entry(layout, image_len, gauge, bad_span(register, count))
}

// The bytes from a register on. `causes::track` has the loop that notes in place of counting.
// Stays: one loop over a closure for both would say in its contract what each of them says here.
#[tactic(auto, using(crate::proofs::WriteLaws::runs))]
fn write_bytes(
    layout: Layout,
    image: &mut [u8],
    gauge: Gauge,
    register: u8,
    bytes: &[u8],
) -> Written
    requires { length bytes.now ≤ registers }
    ensures { outcome (write_answer result) image.new ≡ write_bytes layout image.old gauge register 0 0 bytes.now }
{
    let mut next = gauge;
    let mut changed = 0;
    for (i, byte) in bytes.iter().enumerate() {
        match write_byte(layout, image, next, usize::from(register) + i, *byte) {
            Ok(written) => {
                changed += written.changed;
                next = written.gauge;
            }
            Err(error) => {
                return Written {
                    error: Some(error),
                    accepted: i,
                    changed,
                    gauge: next,
                };
            }
        }
    }
    Written {
        error: None,
        accepted: bytes.len(),
        changed,
        gauge: next,
    }
}

// Writes bytes at a register and those after it.
#[tactic(auto, using(crate::proofs::WriteLaws::span), unfolding(gaugerules::specs::Write::write))]
pub fn write(layout: Layout, image: &mut [u8], gauge: Gauge, register: u8, bytes: &[u8]) -> Written
    ensures { outcome (write_answer result) image.new ≡ write layout image.old gauge register bytes.now }
{
    if let Err(error) = check_call(layout, image.len(), gauge, register, bytes.len()) {
        return Written {
            error: Some(error),
            accepted: 0,
            changed: 0,
            gauge,
        };
    }
    write_bytes(layout, image, gauge, register, bytes)
}
