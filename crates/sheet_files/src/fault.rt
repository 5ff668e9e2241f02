// What failed and why, in a line on standard error.
use arrayvec::ArrayString;
use std::fmt::{Display, Write};
use std::io::Error;

// Room for the longest text that an error has. What there is no room for is let go.
const MOST_TEXT: usize = 256;

// The text of an error of the system without its number, which is printed behind it in brackets.
fn without_number(text: &str) -> &str {
    match text.split_once(" (os error ") {
        Some((words, _)) => words,
        None => text,
    }
}

// Writes a line to standard error: what failed, a colon, and the error's text.
pub fn fail(rt: &impl Eprint, what: impl Display + Drop, error: Error) {
    let mut text = ArrayString::<MOST_TEXT>::new();
    let _ = write!(text, "{error}");
    let words = without_number(text.as_str());
    let _ = eprintln!(rt; "{what}: {words}");
}
