// Whether a text is a script. The state goes in and comes back by value, so a script of any length
// is parsed in chunks: `start`, `feed` for each chunk, `end`. Its lines can be counted on the way.
#![tactic(auto)]

pub mod lines;

ghost use Rattle.std.specs.Prelude.{◌≡◌};
ghost use Rattle.flashrules.specs.Error.{number_of};
ghost use Rattle.scriptrules.specs.Parser.{parser, start, broken, is_digit, is_whole, kind_with, with_digit, with_character, feed, end_error, is_frame};

use flashrules::error::Error;
use hextext::{LINE_FEED, value};
use scriptrules::parser::{Line, MAX_FRAME, Parser, READ, SUPPLY, WRITE};

// Before the first chunk.
pub fn start() -> Parser
    ensures { parser result ≡ start }
{
    Ok(Line {
        count: 0,
        kind: READ,
    })
}

fn broken() -> Parser
    ensures { parser result ≡ broken }
{
    Err(Line {
        count: 0,
        kind: READ,
    })
}

#[tactic(auto, unfolding(scriptrules::specs::Parser::is_digit))]
fn is_digit(c: u8) -> bool
    ensures { result ≡ is_digit c }
{
    matches!(c, b'0'..=b'9' | b'A'..=b'F')
}

// Whether a frame of this kind may have so many digits.
#[tactic(auto, unfolding(scriptrules::specs::Parser::is_whole))]
fn is_whole(kind: u8, count: usize) -> bool
    ensures { result ≡ is_whole kind count }
{
    match kind {
        READ | SUPPLY => count == 6,
        WRITE => 4 <= count && count % 2 == 0,
        _ => false,
    }
}

fn kind_with(kind: u8, c: u8) -> u8
    ensures { result ≡ kind_with kind c }
{
    kind % 16 * 16 + value(c)
}

#[tactic(auto, unfolding(scriptrules::specs::Parser::with_digit))]
fn with_digit(line: Line, c: u8) -> Parser
    ensures { parser result ≡ with_digit line.count line.kind c }
{
    let Line { count, kind } = line;
    if 2 * MAX_FRAME <= count {
        return broken();
    }
    Ok(Line {
        count: count + 1,
        kind: if count < 2 { kind_with(kind, c) } else { kind },
    })
}

#[tactic(auto, using(crate::proofs::StateLaws::characters))]
fn with_character(line: Line, c: u8) -> Parser
    ensures { parser result ≡ with_character line.count line.kind c }
{
    if is_digit(c) {
        with_digit(line, c)
    } else if c == LINE_FEED && is_whole(line.kind, line.count) {
        start()
    } else {
        broken()
    }
}

// The state after another chunk. A state that no character is fed to stays as it was.
#[tactic(auto, using(crate::proofs::StateLaws::feeds))]
pub fn feed(state: Parser, chunk: &[u8]) -> Parser
    ensures { parser result ≡ feed (parser state) chunk.now }
{
    let mut after = state;
    for c in chunk {
        after = match after {
            Ok(line) => with_character(line, *c),
            Err(_) => return broken(),
        };
    }
    after
}

// Whether all that was fed is a script.
#[tactic(auto, unfolding(scriptrules::specs::Parser::end_error))]
pub fn end(state: Parser) -> Result<(), Error>
    ensures { number_of result ≡ end_error (parser state) }
{
    match state {
        Ok(Line { count: 0, .. }) => Ok(()),
        _ => Err(Error::Malformed),
    }
}

// Whether a line, without its line feed, is a frame. A line feed in it would begin the count anew,
// so every byte must be counted.
#[tactic(auto, unfolding(scriptrules::specs::Parser::is_frame))]
pub fn is_frame(line: &[u8]) -> bool
    ensures { result ≡ is_frame line.now }
{
    match feed(start(), line) {
        Ok(after) => after.count == line.len() && is_whole(after.kind, after.count),
        Err(_) => false,
    }
}
