// Cleans a policy file, and prints what goes: `clean READING POLICY CLEANED`. The cleaned policy is written to the file named last.
#![tactic(auto)]

use files::NAME;
use files::words::{word, word_count};

fn main(rt: HostRuntime) {
    if word_count(&rt) != 4 {
        let _ = rt.eprintln("usage: clean READING POLICY CLEANED");
        return;
    }
    let mut digits = [0u8; 16];
    let length = word(&rt, 1, &mut digits);
    let reading = readings::reading_of(&digits[..length]);
    let mut from = [0u8; NAME];
    let from_length = word(&rt, 2, &mut from);
    let mut to = [0u8; NAME];
    let to_length = word(&rt, 3, &mut to);
    cleaner::clean_file(&rt, reading, &from[..from_length], &to[..to_length]);
}
