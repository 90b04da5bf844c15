// Lines counted, where a script may have only so many: document 02, C-13.
ghost use Rattle.std.specs.Prelude.{ℕ, ◌≡◌, length};
ghost use Rattle.scriptrules.specs.Frame.{lines_of};
ghost use Rattle.scriptrules.specs.Session.{too_long, count_on};

use causerules::notes::MAX_LINES;
use hextext::LINE_FEED;
use scriptrules::session::Report;

// One line more than may be counted.
// Stays: a number and no Option. Chunk after chunk is added to it, and it is compared, not opened.
const TOO_MANY: u64 = (MAX_LINES as u64) + 1;

// How many lines a chunk ends.
#[tactic(auto, using(crate::proofs::LineLaws::line_counts))]
fn line_feeds(chunk: &[u8]) -> usize
    ensures { result ≡ length (lines_of chunk.now) }
{
    chunk.iter().filter(|c| **c == LINE_FEED).count()
}

// So many lines and those of a chunk, or TOO_MANY; only where their number matters.
pub fn count_on<P: Into<u8>>(report: P, lines: u64, chunk: &[u8]) -> u64
    ensures { (n : ℕ) × P.converts report n × (result ≡ count_on n lines (length (lines_of chunk.now))) }
{
    match Report::from(report.into()) {
        Report::Replies => lines,
        Report::Causes => lines.saturating_add(line_feeds(chunk) as u64).min(TOO_MANY),
    }
}

// Whether there are more lines than may be run with this report.
pub fn too_long<P: Into<u8>>(report: P, lines: u64) -> bool
    ensures { (n : ℕ) × P.converts report n × (result ≡ too_long n lines) }
{
    match Report::from(report.into()) {
        Report::Replies => false,
        Report::Causes => TOO_MANY <= lines,
    }
}
