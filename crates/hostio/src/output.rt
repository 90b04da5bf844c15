// What goes to standard output and standard error.
ghost use Rattle.std.specs.Prelude.{ℕ, ◌≡◌, [], ◌∷◌, Ok, MatchResult, IsErr};
ghost use Rattle.hextext.specs.Hex.{hex_line};

use hextext::encode_line;
use std::io;
use std::io::Write;
use std::str::from_utf8;

// The line that a refused program prints: the number alone.
pub fn refusal_line<E: Into<u8>>(error: E) -> [u8; 3]
    ensures { (n : ℕ) × E.converts error n × (result ≡ hex_line (n ∷ [])) }
{
    let mut line = [0u8; 3];
    encode_line(&[error.into()], &mut line, 0);
    line
}

// Prints it.
pub fn refuse<R: Print + Eprint + AllocGlobal, E: Into<u8>>(rt: &R, error: E) {
    let line = refusal_line(error);
    let _ = print(rt, &line);
}

// Something failed, and the reason was already written to standard error.
#[derive(Clone, Copy, Debug, PartialEq, Eq)]
pub struct Reported;

// What was answered; of a failure the reason, as a line under a name.
pub fn or_report<R: Eprint + AllocGlobal, T>(
    rt: &R,
    name: &[u8],
    answer: io::Result<T>,
) -> Result<T, Reported>
    ensures { MatchResult answer (λ value. result ≡ Ok value) (λ _. IsErr result) }
{
    answer.map_err(|error| {
        fail(rt, name, &error);
        Reported
    })
}

// Prints all of a text.
pub fn print<R: Print + Eprint + AllocGlobal>(rt: &R, text: &[u8]) -> Result<(), Reported> {
    or_report(rt, b"standard output", io::writer(rt).write_all(text))
}

// A name or a reason as text; what is no UTF-8 is said to be so.
// Stays: bytes and no `&str`. `load` takes any name, and answers one that is no UTF-8.
pub(crate) fn as_text(bytes: &[u8]) -> &str {
    from_utf8(bytes).unwrap_or("(no UTF-8 text)")
}

// A reason, as a line. Nothing is left to do where it cannot be written.
pub fn report<R: Eprint>(rt: &R, reason: &[u8]) {
    let _ = rt.eprintln(as_text(reason));
}

// An error's text without the system's number for it.
fn without_number(text: &str) -> &str {
    match text.split_once(" (os error ") {
        Some((words, _)) => words,
        None => text,
    }
}

// A reason, as a line under a name.
pub(crate) fn report_under<R: Eprint>(rt: &R, name: &[u8], reason: &str) {
    let name = as_text(name);
    let _ = eprintln!(rt; "{name}: {reason}");
}

// The system's reason, as a line under a name. Where there is no memory to leave out the system's
// number, it stands there.
pub fn fail<R: Eprint + AllocGlobal>(rt: &R, name: &[u8], error: &io::Error) {
    match format!(in rt.alloc(); "{error}") {
        Ok(text) => report_under(rt, name, without_number(text.as_str())),
        Err(_) => {
            let name = as_text(name);
            let _ = eprintln!(rt; "{name}: {error}");
        }
    }
}
