// Reads what `enforce` reads, and writes what the enforcer releases as a file for wave viewers: `wave [READING]`.
#![tactic(auto)]

use files::faults::tell;
use files::read_full;
use files::words::{word, word_count};

fn main(rt: HostRuntime) {
    let mut digits = [0u8; 16];
    let length = word(&rt, 1, &mut digits);
    let reading = readings::reading_told(word_count(&rt), &digits[..length]);
    let mut input = [0u8; frames::INPUT];
    let (read, _) = read_full(&mut rt.stdin(), &mut input);
    let mut marks = [0u8; console::MARKS];
    let mut released = [0u8; frames::EVENTS];
    let mut text = [0u8; viewer::TEXT];
    let written = viewer::respond(
        reading,
        &input[..read],
        &mut marks,
        &mut released,
        &mut text,
    );
    if let Err(error) = rt.write_all(&text[..written]) {
        tell(&rt, b"wave: standard output", error);
    }
}
