// Which line of a script breaks its rules, for the message: the script is read once more, character
// by character.
use hextext::LINE_FEED;
use hostio::input::read_some;
use hostio::output::report;
use scriptparser::{feed, start};
use scriptrules::parser::Parser;
use std::io::{Read, Seek};

// The good lines of a chunk are counted on, until a rule is broken.
fn count_lines(state: Parser, lines: u64, chunk: &[u8]) -> (Parser, u64) {
    let mut state = state;
    let mut lines = lines;
    for c in chunk {
        state = feed(state, &[*c]);
        if state.is_err() {
            break;
        }
        if *c == LINE_FEED {
            lines = lines.wrapping_add(1);
        }
    }
    (state, lines)
}

// How many good lines come first. Nothing says that a file ends, so the loop has a number of turns
// that no run uses up, as every loop over a file.
fn good_lines<R: Eprint + AllocGlobal, F: Read>(rt: &R, file: &mut F, buffer: &mut [u8]) -> u64 {
    let mut state = start();
    let mut lines = 0;
    for _ in 0..u64::MAX {
        let count = read_some(rt, file, b"script.hex", buffer).unwrap_or(0);
        (state, lines) = count_lines(state, lines, &buffer[..count]);
        if count == 0 || state.is_err() {
            break;
        }
    }
    lines
}

// The reason, as a line on standard error.
pub(crate) fn diagnose_line<R: Eprint + AllocGlobal, F: Read + Seek>(
    rt: &R,
    file: &mut F,
    buffer: &mut [u8],
) {
    if file.rewind().is_err() {
        report(rt, b"script.hex: no script");
        return;
    }
    let line = good_lines(rt, file, buffer).wrapping_add(1);
    let _ = eprintln!(rt; "script.hex: no script: line {line} is no frame");
}
