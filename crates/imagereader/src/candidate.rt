// What a text might hold, with little asked of it: the classes that its lines name, and the bytes
// that they hold. `parse` judges the candidate.
ghost use Rattle.std.specs.Prelude.{◌≡◌, ◌+◌, ◌*◌, ◌≤◌, length, take, drop, MatchOption};
ghost use Rattle.std.proofs.lemmas.List.Edits.{sets};
ghost use Rattle.hextext.specs.Scan.{index_of};
ghost use Rattle.hextext.specs.Hex.{unhex, line_feed};
ghost use Rattle.flashrules.specs.Lookup.{block_size};
ghost use Rattle.imagerules.specs.Text.{max_lines};
ghost use Rattle.imagerules.specs.Candidate.{data_bytes, width, class_byte, content, candidate};

use crate::classes::Classes;
use flashrules::lookup::BLOCK_SIZE;
use hextext::scan::find;
use hextext::{LINE_FEED, decode, pair};
use imagerules::answer::FileRead;
use imagerules::text::MAX_LINES;

// A line: how many data bytes it has, and where the next one begins.
#[derive(Clone, Copy)]
struct Line {
    width: usize,
    next: usize,
}

// How many data bytes a line of so many pairs of characters has, if it can be one.
fn data_bytes(pairs: usize) -> Option<usize>
    ensures { MatchOption result (data_bytes pairs ≡ 0) (λ n. (n ≡ data_bytes pairs) × (1 ≤ n) × (n ≤ block_size)) }
{
    if 3 < pairs && pairs <= BLOCK_SIZE + 3 {
        Some(pairs - 3)
    } else {
        None
    }
}

// The line at an index, if there is one.
// Stays: an index and no rest of the text. Where the next line begins is a place of the text too.
#[tactic(auto, using(crate::proofs::CandidateLaws::ends))]
fn line_at(text: &[u8], at: usize) -> Option<Line>
    requires { at ≤ length text.now }
    ensures { MatchOption result (width (drop at text.now) ≡ 0) (λ line. (line.width ≡ width (drop at text.now)) × (1 ≤ line.width) × (line.width ≤ block_size) × (line.next ≡ at + index_of line_feed (drop at text.now) + 1)) }
{
    let end = find(text, at, text.len(), LINE_FEED);
    if end == text.len() {
        return None;
    }
    let width = data_bytes((end - at) / 2)?;
    Some(Line {
        width,
        next: end + 1,
    })
}

// The data bytes of the line at an index, behind class and block number, into a buffer from an
// index on; answers the class.
fn take_line(text: &[u8], at: usize, width: usize, buffer: &mut [u8], out: usize) -> u8
    requires { at + 4 + 2 * width ≤ length text.now }
    ensures value { result ≡ class_byte (drop at text.now) }
    ensures buffer_after { buffer.new ≡ sets buffer.old out (unhex (take (2 * width) (drop (at + 4) text.now))) }
{
    decode(&text[at + 4..at + 4 + 2 * width], buffer, out);
    pair(text[at], text[at + 1])
}

// The candidate: the layout, and its bytes at the front of a buffer.
pub(crate) fn candidate(text: &[u8], buffer: &mut [u8]) -> FileRead
    requires { max_lines * block_size ≤ length buffer.old }
    ensures buffer_after { content result.layout (take result.length buffer.new) ≡ candidate text.now }
    ensures length_in_bounds { result.length ≤ length buffer.new }
{
    let mut classes = Classes::new();
    let mut at = 0;
    let mut out = 0;
    for _n in 0..MAX_LINES {
        let Some(Line { width, next }) = line_at(text, at) else {
            break;
        };
        let class = take_line(text, at, width, buffer, out);
        classes.add_line(class, width as u16);
        at = next;
        out += width;
    }
    FileRead {
        layout: classes.layout,
        length: out,
    }
}
