// script.hex, parsed.
ghost use Rattle.std.specs.Prelude.{true, IfOk};
ghost use Rattle.scriptrules.specs.Parser.{start, parser};
ghost use Rattle.scriptrules.specs.Session.{report_number};
ghost use Rattle.scripthost.specs.Checked.{Fed, ScriptChecked};

use crate::diagnose::diagnose_line;
use hostio::input::{CHUNK, read_some};
use hostio::output::{Reported, or_report, report};
use scriptparser::lines::{count_on, too_long};
use scriptparser::{end, feed, start};
use scriptrules::parser::Parser;
use scriptrules::session::Report;
use std::fs::File;
use std::io::{Read, Seek};
use std::rt::Files;

// What the first pass found: the parser's state, and how many characters and lines were fed to it.
#[derive(Clone, Copy)]
pub(crate) struct Parsed {
    pub state: Parser,
    pub count: u64,
    pub lines: u64,
}

// The file, if it can be opened.
pub(crate) fn open<R: Files + Eprint + AllocGlobal>(rt: &R) -> Result<R::File, Reported> {
    or_report(rt, b"script.hex", File::open(rt, "script.hex"))
}

// A chunk more is fed to the parser.
fn feed_chunk(kind: Report, parsed: Parsed, chunk: &[u8]) -> Parsed
    ensures { Fed (report_number kind) (parser parsed.state) parsed.count parsed.lines (parser result.state) result.count result.lines }
{
    Parsed {
        state: feed(parsed.state, chunk),
        count: parsed.count.wrapping_add(chunk.len() as u64),
        lines: count_on(kind, parsed.lines, chunk),
    }
}

// All chunks. Nothing says that a file ends, so the loop has a number of turns that no run uses up.
#[tactic(auto, using(crate::proofs::CheckedLaws::feeds))]
fn parse_all<R: Eprint + AllocGlobal, F: Read>(
    rt: &R,
    file: &mut F,
    kind: Report,
    buffer: &mut [u8],
) -> Result<Parsed, Reported>
    ensures { IfOk result (λ p. Fed (report_number kind) start 0 0 (parser p.state) p.count p.lines) }
{
    let mut parsed = Parsed {
        state: start(),
        count: 0,
        lines: 0,
    };
    for _ in 0..u64::MAX {
        let count = read_some(rt, file, b"script.hex", buffer)?;
        if count == 0 {
            break;
        }
        parsed = feed_chunk(kind, parsed, &buffer[..count]);
    }
    Ok(parsed)
}

// The first pass: a script that can be read once more from its start, or the reason was reported.
#[tactic(auto, using(crate::proofs::CheckedLaws::checks))]
pub(crate) fn parse<R: Eprint + AllocGlobal, F: Read + Seek>(
    rt: &R,
    file: &mut F,
    kind: Report,
) -> Result<Parsed, Reported>
    ensures { IfOk result (λ p. ScriptChecked (report_number kind) true (parser p.state) p.count p.lines) }
{
    let mut buffer = [0u8; CHUNK];
    let parsed = parse_all(rt, file, kind, &mut buffer)?;
    if end(parsed.state).is_err() {
        diagnose_line(rt, file, &mut buffer);
        return Err(Reported);
    }
    if too_long(kind, parsed.lines) {
        report(
            rt,
            b"script.hex: no script: more lines than can be numbered",
        );
        return Err(Reported);
    }
    or_report(rt, b"script.hex", file.rewind())?;
    Ok(parsed)
}
