// Bytes as upper-case hexadecimal text in a lent buffer, and back. A buffer is written from an
// index on, and every contract says what it then holds by the library's `sets buffer at xs`: the
// buffer with xs stored from `at` on, the rest as it was. What would lie past the buffer's end is
// not stored, so every function here answers every argument.
// Stays: a place beside the buffer and no slice of it. A text goes on past a short buffer's end,
// and the length that is answered is that of all of it (`delta` puts one into an empty buffer).
#![tactic(auto)]

pub mod scan;

ghost use Rattle.std.specs.Prelude.{◌≡◌, [], ◌∷◌, ◌+◌, ◌*◌, ◌<◌};
ghost use Rattle.std.proofs.lemmas.List.Edits.{sets};
ghost use Rattle.hextext.specs.Hex.{digit, value, pair, hex, unhex, hex_line};

pub const LINE_FEED: u8 = 10;

// The digit of a number's low four bits.
#[tactic(auto, unfolding(crate::specs::Hex::digit))]
fn digit(n: u8) -> u8
    ensures { result ≡ digit n }
{
    let low = n % 16;
    if low < 10 { 48 + low } else { 55 + low }
}

// The number of a digit; of any other byte some number below 16.
#[tactic(auto, unfolding(crate::specs::Hex::value))]
pub fn value(c: u8) -> u8
    ensures { (result ≡ value c) × (result < 16) }
{
    if c < 65 { c % 16 } else { (c % 16 + 9) % 16 }
}

// The byte that two digits stand for, the high one first.
pub fn pair(high: u8, low: u8) -> u8
    ensures { result ≡ pair high low }
{
    value(high) * 16 + value(low)
}

// One byte as it is.
#[tactic(auto, using(crate::proofs::StoreLaws::sets_out))]
fn store(byte: u8, buffer: &mut [u8], at: usize)
    ensures { buffer.new ≡ sets buffer.old at (byte ∷ []) }
{
    if at < buffer.len() {
        buffer[at] = byte;
    }
}

// One byte as two digits.
#[tactic(auto, using(crate::proofs::StoreLaws::sets_out))]
pub fn encode_byte(byte: u8, buffer: &mut [u8], at: usize)
    ensures { buffer.new ≡ sets buffer.old at (hex (byte ∷ [])) }
{
    if at < buffer.len() {
        store(digit(byte / 16), buffer, at);
        store(digit(byte), buffer, at + 1);
    }
}

// Bytes, two digits each.
#[tactic(auto, using(crate::proofs::HexLaws::encodes))]
pub fn encode(bytes: &[u8], buffer: &mut [u8], at: usize)
    ensures { buffer.new ≡ sets buffer.old at (hex bytes.now) }
{
    let mut out = at;
    for byte in bytes {
        if buffer.len() <= out {
            return;
        }
        encode_byte(*byte, buffer, out);
        out += 2;
    }
}

// A line of bytes, two digits each, and a line feed.
#[tactic(auto, using(crate::proofs::HexLaws::lines))]
pub fn encode_line(bytes: &[u8], buffer: &mut [u8], at: usize)
    ensures { buffer.new ≡ sets buffer.old at (hex_line bytes.now) }
{
    encode(bytes, buffer, at);
    if at < buffer.len() && bytes.len() <= (buffer.len() - at) / 2 {
        store(LINE_FEED, buffer, at + 2 * bytes.len());
    }
}

// The bytes that a text's pairs of digits stand for; an odd last byte of the text counts for
// nothing.
#[tactic(auto, using(crate::proofs::HexLaws::decodes))]
pub fn decode(text: &[u8], buffer: &mut [u8], at: usize)
    ensures { buffer.new ≡ sets buffer.old at (unhex text.now) }
{
    let mut out = at;
    for digits in text.chunks_exact(2) {
        if buffer.len() <= out {
            return;
        }
        buffer[out] = pair(digits[0], digits[1]);
        out += 1;
    }
}
