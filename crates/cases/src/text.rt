// Lines of standard output. Nothing is left to do where one cannot be written.
use std::io;
use std::io::Write;

pub(crate) fn show_text<R: Print>(rt: &R, text: &[u8]) {
    let _ = io::writer(rt).write_all(text);
}

pub(crate) fn show_number<R: Print>(rt: &R, n: u64) {
    let _ = print!(rt; "{n}");
}

// The end of a case.
pub(crate) fn show_verdict<R: Print>(rt: &R, same: bool) {
    if same {
        show_text(rt, b": as in the table\n");
    } else {
        show_text(rt, b": NOT AS IN THE TABLE\n");
    }
}
