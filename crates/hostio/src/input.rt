// Files are read in pieces, and a read that fails is told from the end of a file.
ghost use Rattle.std.specs.Prelude.{◌≤◌, length, IfOk};

use crate::output::{Reported, or_report};
use std::io::Read;

// How much of a file is read at a time.
pub const CHUNK: usize = 65536;

// How many bytes were put at the front of the buffer, 0 at the end of the file, as std's `read` has
// it. Where the read fails, the reason goes to standard error under the file's name.
pub fn read_some<R: Eprint + AllocGlobal, F: Read>(
    rt: &R,
    file: &mut F,
    name: &[u8],
    buffer: &mut [u8],
) -> Result<usize, Reported>
    ensures { IfOk result (λ count. count ≤ length buffer.old) }
{
    or_report(rt, name, file.read(buffer))
}
