// A read: so many registers from one on, into a lent buffer. It changes nothing else; a refused one
// leaves the buffer untouched, and an accepted one the bytes past the answer.
// Stays: layout, image and gauge are parameters of their own, as `flashrules::layout` says.
ghost use Rattle.std.specs.Prelude.{◌≡◌, ◌+◌, length};
ghost use Rattle.flashrules.specs.Error.{number_of};
ghost use Rattle.flashrules.specs.Outcome.{outcome};
ghost use Rattle.gaugerules.specs.Answer.{read_answer};
ghost use Rattle.gaugerules.specs.Read.{unless_sealed, read_byte, read_bytes, read_error, read};

use crate::register::decode;
use crate::write::check_call;
use checksum::checksum;
use flashrules::error::Error;
use flashrules::layout::Layout;
use gaugerules::register::Register;
use gaugerules::state::{Gauge, SEALED};

// A number that a sealed gauge does not show.
fn unless_sealed(gauge: &Gauge, value: u8) -> u8
    ensures { result ≡ unless_sealed gauge.now value }
{
    if gauge.mode == SEALED { 0 } else { value }
}

// What a register reads.
#[tactic(auto, using(crate::proofs::ReadLaws::reads_register))]
fn read_byte(gauge: &Gauge, register: usize) -> u8
    ensures { result ≡ read_byte gauge.now register }
{
    let [low, high] = gauge.result.to_le_bytes();
    match decode(register) {
        Register::ControlLow => low,
        Register::ControlHigh => high,
        Register::DataFlashClass => unless_sealed(gauge, gauge.class),
        Register::DataFlashBlock => gauge.block,
        Register::BlockData(k) => gauge.window[k],
        Register::BlockDataChecksum => checksum(&gauge.window),
        Register::BlockDataControl => unless_sealed(gauge, gauge.control),
        Register::Other => 0,
    }
}

// Whether a read is accepted; the image and the buffer have so many bytes.
#[tactic(auto, using(crate::proofs::ReadLaws::room_tests))]
fn check_read(
    layout: Layout,
    image_len: usize,
    gauge: Gauge,
    register: u8,
    count: usize,
    room: usize,
) -> Result<(), Error>
    ensures { number_of result ≡ read_error layout image_len gauge register count room }
{
    check_call(layout, image_len, gauge, register, count)?;
    if room < count {
        return Err(Error::ShortBuffer);
    }
    Ok(())
}

// The registers from one on, as many as there is room for.
#[tactic(auto, unfolding(gaugerules::specs::Read::read_bytes))]
fn fill(gauge: &Gauge, register: u8, buffer: &mut [u8])
    ensures { buffer.new ≡ read_bytes gauge.now register (length buffer.old) }
{
    for (i, byte) in buffer.iter_mut().enumerate() {
        *byte = read_byte(gauge, usize::from(register) + i);
    }
}

// Reads so many registers from one on, and answers how many.
#[tactic(auto, using(crate::proofs::ReadLaws::room), unfolding(gaugerules::specs::Read::read))]
pub fn read(
    layout: Layout,
    image: &[u8],
    gauge: Gauge,
    register: u8,
    count: usize,
    buffer: &mut [u8],
) -> Result<usize, Error>
    ensures { outcome (read_answer result) buffer.new ≡ read layout image.now gauge register count buffer.old }
{
    check_read(layout, image.len(), gauge, register, count, buffer.len())?;
    fill(&gauge, register, &mut buffer[..count]);
    Ok(count)
}
