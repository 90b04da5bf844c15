// Replays script.hex on a gauge with the image of image.hex, both in the current folder: powered on
// sealed, one line an answer. A file that breaks its rules, is missing or cannot be read gives the
// single line 0A, and the reason goes to standard error.
#![tactic(auto)]

use scripthost::files::run_files;
use scriptrules::session::Report;

fn main(rt: HostRuntime) {
    run_files(&rt, Report::Replies);
}
