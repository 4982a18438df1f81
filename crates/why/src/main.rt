// Reads what `enforce` reads, and prints what it prints, with a reason after each edited half: `why [READING]`.
#![tactic(auto)]

use files::faults::tell;
use files::read_full;
use files::words::{word, word_count};

fn main(rt: HostRuntime) {
    let mut digits = [0u8; 16];
    let length = word(&rt, 1, &mut digits);
    let reading = readings::reading_told(word_count(&rt), &digits[..length]);
    let mut input = [0u8; frames::INPUT];
    let (read, _) = read_full(&mut rt.stdin(), &mut input);
    let mut marks = [0u8; console::MARKS];
    let mut released = [0u8; frames::EVENTS];
    let mut ticks = [0u32; console::MARKS];
    let mut rests = [0u32; console::MARKS];
    let mut text = [0u8; telling::TEXT];
    let written = telling::respond(
        reading,
        &input[..read],
        &mut marks,
        &mut released,
        &mut ticks,
        &mut rests,
        &mut text,
    );
    if let Err(error) = rt.write_all(&text[..written]) {
        tell(&rt, b"why: standard output", error);
    }
}
