// Says why writes and supplies were refused: script.hex is run on a gauge with the image of
// image.hex, both in the current folder, as `replay` runs it, and each refused one gives a line:
// the error, the number of the line that caused it in four bytes, and for 8 the checksum that would
// have matched. A file that breaks its rules, is missing or cannot be read gives the single line
// 0A, and the reason goes to standard error; so does a script of more lines than four bytes can
// count.
#![tactic(auto)]

use scripthost::files::run_files;
use scriptrules::session::Report;

fn main(rt: HostRuntime) {
    run_files(&rt, Report::Causes);
}
