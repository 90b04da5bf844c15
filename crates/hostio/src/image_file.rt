// An image file by its name.
ghost use Rattle.std.specs.Prelude.{◌≡◌, ◌≤◌, true, length, is_err, IfOk, IsErr};
ghost use Rattle.std.specs.Str.{IsUtf8};
ghost use Rattle.hostio.specs.Loaded.{Loaded};

use crate::input::read_some;
use crate::output::{Reported, or_report, report, report_under};
use flashrules::error::Error;
use imagereader::read;
use imagerules::answer::FileRead;
use imagerules::text::MAX_TEXT;
use std::fs::File;
use std::io;
use std::io::Read;
use std::rt::Files;
use std::str::from_utf8;

// Reads until the buffer is full or the file ends; how many bytes.
fn fill<R: Eprint + AllocGlobal, F: Read>(
    rt: &R,
    file: &mut F,
    name: &[u8],
    buffer: &mut [u8],
) -> Result<usize, Reported>
    ensures { IfOk result (λ count. count ≤ length buffer.old) }
{
    let mut done = 0;
    // Stays: no list is gone through; a read answers how far the index goes on.
    while done < buffer.len() {
        let count = read_some(rt, file, name, &mut buffer[done..])?;
        if count == 0 {
            break;
        }
        done += count;
    }
    Ok(done)
}

// The text of a file that was opened, at the front of the buffer, as far as it goes: how many
// bytes. One that could not be opened has none.
fn load_opened<R: Eprint + AllocGlobal, F: Read + Drop>(
    rt: &R,
    opened: io::Result<F>,
    name: &[u8],
    buffer: &mut [u8],
) -> Result<usize, Reported>
    ensures in_bounds { IfOk result (λ count. count ≤ length buffer.old) }
    ensures unopened { is_err opened ≡ true → IsErr result }
{
    let mut file = or_report(rt, name, opened)?;
    fill(rt, &mut file, name, buffer)
}

// The text of the file with a name. The library opens paths that are text, and no others.
fn load_text<R: Files + Eprint + AllocGlobal>(
    rt: &R,
    name: &[u8],
    buffer: &mut [u8],
) -> Result<usize, Reported>
    ensures { IfOk result (λ count. IsUtf8 name.now × (count ≤ length buffer.old)) }
{
    let Ok(path) = from_utf8(name) else {
        report(rt, b"a file's name is no UTF-8 text");
        return Err(Reported);
    };
    load_opened(rt, File::open(rt, path), name, buffer)
}

// The layout of the file, and its image at the front of the buffer. No image file is longer than
// MAX_TEXT or empty: of a longer file one byte more is parsed than that, and one that cannot be
// read is refused as an empty one is. Where it is refused, the reason goes to standard error under
// the file's name.
#[tactic(auto, using(crate::proofs::LoadedLaws::unread))]
pub fn load<R: Files + Eprint + AllocGlobal>(
    rt: &R,
    name: &[u8],
    buffer: &mut [u8],
) -> Result<FileRead, Error>
    ensures { Loaded result buffer.old buffer.new }
{
    let mut text = [0u8; MAX_TEXT + 1];
    let count = load_text(rt, name, &mut text).map_err(|_| Error::Malformed)?;
    read(&text[..count], buffer).inspect_err(|_| report_under(rt, name, "no image file"))
}
