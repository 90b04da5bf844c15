// What a call that runs lines answers.
ghost use Rattle.std.specs.Prelude.{◌≤◌};
ghost use Rattle.scriptrules.specs.Reply.{max_reply};

use crate::session::Session;
use flashrules::error::Error;
use gaugerules::register::REGISTERS;

// The longest reply: 00, 128 bytes and a line feed.
pub const MAX_REPLY: usize = 2 * (1 + REGISTERS) + 1;

// After a line that was run: the session, and how long is what it put out, with its line feed. A
// refused line leaves the session as it was, so it answers the refusal alone. No line puts out more
// than the longest reply.
#[derive(Clone, Copy)]
pub struct Answered {
    pub session: Session,
    pub length: usize,
    ghost short: { length ≤ max_reply },
}

// After the lines of a text: why the first line that was not run is refused, if there is one, the
// session, where that line begins, and how many bytes of the buffer are output.
#[derive(Clone, Copy)]
pub struct Progress {
    pub error: Option<Error>,
    pub session: Session,
    pub next: usize,
    pub length: usize,
}
