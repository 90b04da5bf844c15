// Control words: a byte at 0x01 makes one, and it is obeyed. The keys are read from the image at
// that moment.
#![tactic(auto)]

ghost use Rattle.std.specs.Prelude.{◌≡◌, cond, ◌+◌, ◌≤◌, ◌<◌, eqb, length, take, drop, get_or};
ghost use Rattle.flashrules.specs.Choice.{differing};
ghost use Rattle.gaugerules.specs.Keys.{full_access_key, key_length, as_sent, is_key};
ghost use Rattle.gaugerules.specs.Word.{word, status, key_wanted, mode_opened, waits, opened, key_word, with_status, obey};

use dataflash::block;
use flashrules::layout::{KEY_CLASS, Layout};
use gaugerules::keys::{FULL_ACCESS_KEY, KEY_BLOCK, KEY_LENGTH, UNSEAL_KEY};
use gaugerules::state::{BOOT_SEALED, FULL_ACCESS, Gauge, NO_WORD, SEALED, UNSEALED};
use gaugestate::state::restart;

// The words that are never key words.
const STATUS_WORD: u32 = 0x0000;

const SEAL_WORD: u32 = 0x0020;

const RESET_WORD: u32 = 0x0041;

// What the status word leaves in Control().
const STATUS_SEALED: u16 = 0x6000;

const STATUS_UNSEALED: u16 = 0x4000;

const STATUS_FULL_ACCESS: u16 = 0x0000;

fn status(gauge: Gauge) -> u16
    ensures { result ≡ status gauge }
{
    match gauge.mode {
        SEALED => STATUS_SEALED,
        UNSEALED => STATUS_UNSEALED,
        _ => STATUS_FULL_ACCESS,
    }
}

// 1 where the byte at `at` is not the one sent, 0 where it is.
fn differs(keys: &[u8], at: usize, sent: u32) -> usize
    requires { at < length keys.now }
    ensures { (result ≡ cond (eqb (get_or keys.now at 0) sent) 0 1) × (result ≤ 1) }
{
    (keys[at] as u32 != sent) as usize
}

// In how many of its four places a key that begins at `at` differs from two words as sent, low byte
// first. All four are looked at, whatever they hold.
// Stays: four lines and no loop or `==`. C-15 asks for no branch, and tests/keycode looks for one.
#[tactic(auto, using(crate::proofs::WordLaws::four))]
fn key_differing(keys: &[u8], at: usize, first: u32, second: u32) -> usize
    requires { at + key_length ≤ length keys.now }
    ensures { result ≡ differing (take key_length (drop at keys.now)) (as_sent first second) }
{
    let a = differs(keys, at, first % 256);
    let b = differs(keys, at + 1, first / 256);
    let c = differs(keys, at + 2, second % 256);
    let d = differs(keys, at + 3, second / 256);
    a + b + c + d
}

// Whether two words as sent are the key that begins at `at`. Fewer bytes than four are no key.
#[tactic(auto, using(crate::proofs::WordLaws::keys_are))]
fn is_key(keys: &[u8], at: usize, first: u32, second: u32) -> bool
    requires { at ≤ full_access_key }
    ensures { result ≡ is_key keys.now at first second }
{
    at + KEY_LENGTH <= keys.len() && key_differing(keys, at, first, second) == 0
}

// Stays: this and `mode_opened` are one test with two answers, and each stands alone in its rule.
fn key_wanted(gauge: Gauge) -> usize
    ensures { (result ≡ key_wanted gauge) × (result ≤ full_access_key) }
{
    if gauge.mode == SEALED {
        UNSEAL_KEY
    } else {
        FULL_ACCESS_KEY
    }
}

fn mode_opened(gauge: Gauge) -> u8
    ensures { result ≡ mode_opened gauge }
{
    if gauge.mode == SEALED {
        UNSEALED
    } else {
        FULL_ACCESS
    }
}

fn waits(gauge: Gauge, word: u32) -> Gauge
    ensures { result ≡ waits gauge word }
{
    Gauge {
        result: 0,
        pending: word,
        ..gauge
    }
}

fn opened(gauge: Gauge) -> Gauge
    ensures { result ≡ opened gauge }
{
    Gauge {
        mode: mode_opened(gauge),
        ..waits(gauge, NO_WORD)
    }
}

#[tactic(auto, using(crate::proofs::WordLaws::key_word_is))]
fn key_word(layout: Layout, image: &[u8], gauge: Gauge, word: u32) -> Gauge
    ensures { result ≡ key_word layout image.now gauge word }
{
    if gauge.mode == FULL_ACCESS {
        return waits(gauge, NO_WORD);
    }
    if gauge.pending == NO_WORD {
        return waits(gauge, word);
    }
    let keys = block(layout, image, KEY_CLASS, KEY_BLOCK);
    if is_key(keys, key_wanted(gauge), gauge.pending, word) {
        return opened(gauge);
    }
    waits(gauge, word)
}

fn with_status(gauge: Gauge) -> Gauge
    ensures { result ≡ with_status gauge }
{
    Gauge {
        pending: NO_WORD,
        result: status(gauge),
        ..gauge
    }
}

// A control word is obeyed.
#[tactic(auto, unfolding(gaugerules::specs::Word::obey))]
fn obey(layout: Layout, image: &[u8], gauge: Gauge, word: u32) -> Gauge
    ensures { result ≡ obey layout image.now gauge word }
{
    match word {
        STATUS_WORD => with_status(gauge),
        SEAL_WORD => restart(gauge, BOOT_SEALED),
        RESET_WORD => restart(gauge, gauge.boot),
        _ => key_word(layout, image, gauge, word),
    }
}

// The word of a low and a high byte.
fn word(low: u8, high: u8) -> u32
    ensures { result ≡ word low high }
{
    u32::from(u16::from_le_bytes([low, high]))
}

// 0x01: the word that this byte makes with the low control byte is obeyed.
pub fn take_high(layout: Layout, image: &[u8], gauge: Gauge, byte: u8) -> Gauge
    ensures { result ≡ obey layout image.now gauge (word gauge.low byte) }
{
    obey(layout, image, gauge, word(gauge.low, byte))
}
