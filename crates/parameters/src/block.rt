// Bytes of a class that lie inside one block, through the gauge's public calls: the block is
// loaded, and they are read in the window, or others are written there and committed.
ghost use Rattle.std.specs.Prelude.{◌≡◌, ◌+◌, ◌/◌, ◌%◌, ◌≤◌, length};
ghost use Rattle.flashrules.specs.Lookup.{block_size};
ghost use Rattle.flashrules.specs.Image.{max_byte};
ghost use Rattle.gaugerules.specs.Register.{block_data};
ghost use Rattle.gaugerules.specs.Read.{read};
ghost use Rattle.gaugerules.specs.Script.{device, to_write, after_call};
ghost use Rattle.parameters.specs.Access.{opened, selected_at, edited_at, commit_sent, sent_at};

use checksum::checksum;
use flashrules::layout::Layout;
use flashrules::lookup::BLOCK_SIZE;
use gauge::read::read;
use gauge::write::write;
use gaugerules::register::{BLOCK_DATA, BLOCK_DATA_CHECKSUM, BLOCK_DATA_CONTROL, DATA_FLASH_CLASS};
use gaugerules::state::{BOOT_OPEN, CONTROL_FLASH, Gauge};
use gaugestate::state::power_on;

// Where they begin: their class, and the first of them in it. A byte can name their block.
#[derive(Clone, Copy)]
pub(crate) struct Place {
    pub(crate) class: u8,
    pub(crate) at: usize,
    ghost named: { at / block_size ≤ max_byte },
}

// One write. What it answers is not looked at: the laws say that it is accepted.
#[tactic(auto, using(crate::proofs::BlockLaws::puts))]
fn put(layout: Layout, image: &mut [u8], gauge: Gauge, register: u8, bytes: &[u8]) -> Gauge
    ensures { device result image.new ≡ after_call layout (device gauge image.old) (to_write register bytes.now) }
{
    write(layout, image, gauge, register, bytes).gauge
}

// Powers a gauge on and gives it general access.
pub(crate) fn open_flash(layout: Layout, image: &mut [u8]) -> Gauge
    ensures { device result image.new ≡ opened layout image.old }
{
    put(
        layout,
        image,
        power_on(BOOT_OPEN),
        BLOCK_DATA_CONTROL as u8,
        &[CONTROL_FLASH],
    )
}

// The block is loaded.
fn select(layout: Layout, image: &mut [u8], gauge: Gauge, place: Place) -> Gauge
    ensures { device result image.new ≡ selected_at layout (device gauge image.old) place.class place.at }
{
    let block = (place.at / BLOCK_SIZE) as u8;
    put(
        layout,
        image,
        gauge,
        DATA_FLASH_CLASS as u8,
        &[place.class, block],
    )
}

// The register of the first byte while its block is loaded.
fn register(at: usize) -> u8
    ensures { result ≡ block_data + at % block_size }
{
    (BLOCK_DATA + at % BLOCK_SIZE) as u8
}

// The block is loaded, and its bytes are read into a buffer, as many as that has.
#[tactic(auto, using(crate::proofs::BlockLaws::receives))]
pub(crate) fn receive(
    layout: Layout,
    image: &mut [u8],
    gauge: Gauge,
    place: Place,
    buffer: &mut [u8],
) -> Gauge
    ensures image_after { device result image.new ≡ selected_at layout (device gauge image.old) place.class place.at }
    ensures buffer_after { buffer.new ≡ (read layout image.new result (block_data + place.at % block_size) (length buffer.old) buffer.old).lent }
{
    let loaded = select(layout, image, gauge, place);
    let count = buffer.len();
    // Not looked at, as in `put`.
    let _ = read(layout, image, loaded, register(place.at), count, buffer);
    loaded
}

// Bytes are written to the window.
fn edit(layout: Layout, image: &mut [u8], gauge: Gauge, at: usize, bytes: &[u8]) -> Gauge
    ensures { device result image.new ≡ edited_at layout (device gauge image.old) at bytes.now }
{
    put(layout, image, gauge, register(at), bytes)
}

// The window's checksum is written.
fn commit(layout: Layout, image: &mut [u8], gauge: Gauge) -> Gauge
    ensures { device result image.new ≡ commit_sent layout (device gauge image.old) }
{
    let sum = checksum(&gauge.window);
    put(layout, image, gauge, BLOCK_DATA_CHECKSUM as u8, &[sum])
}

// The block is loaded, bytes are written there, and committed.
pub(crate) fn send(
    layout: Layout,
    image: &mut [u8],
    gauge: Gauge,
    place: Place,
    bytes: &[u8],
) -> Gauge
    ensures { device result image.new ≡ sent_at layout (device gauge image.old) place.class place.at bytes.now }
{
    let loaded = select(layout, image, gauge, place);
    let edited = edit(layout, image, loaded, place.at, bytes);
    commit(layout, image, edited)
}
