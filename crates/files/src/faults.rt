// What fails is named on standard error. Where that cannot be written either, nothing is said.
use std::io::{Cursor, Error, Write};
use std::str;

// Writes the words of the failure, and the number that `std` puts after those of the system.
fn put_words(error: Error, text: &mut Cursor<[u8; 256]>) {
    let _ = write!(text, "{error}");
}

// The system's words, without their number.
fn words_of(said: &str) -> &str {
    match said.split_once(" (os error ") {
        Some((words, _)) => words,
        None => said,
    }
}

// Writes a line: what failed, as the caller names it, a colon and why.
pub fn tell(rt: &HostRuntime, what: &[u8], error: Error) {
    let mut text = Cursor::new([0u8; 256]);
    put_words(error, &mut text);
    let length = text.position().min(256) as usize;
    let said = &text.get_ref()[..length];
    let _ = rt.stderr().write_all(what);
    let _ = rt.stderr().write_all(b": ");
    if let Ok(said) = str::from_utf8(said) {
        let _ = rt.stderr().write_all(words_of(said).as_bytes());
    }
    let _ = rt.stderr().write_all(b"\n");
}
