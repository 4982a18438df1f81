// Compiles a policy's text into its file, and prints how long that is: `compile TEXT FILE`. The policy is written to the file named last.
#![tactic(auto)]

use files::NAME;
use files::words::{word, word_count};

fn main(rt: HostRuntime) {
    if word_count(&rt) != 3 {
        let _ = rt.eprintln("usage: compile TEXT FILE");
        return;
    }
    let mut from = [0u8; NAME];
    let from_length = word(&rt, 1, &mut from);
    let mut to = [0u8; NAME];
    let to_length = word(&rt, 2, &mut to);
    scribe::compile_file(&rt, &from[..from_length], &to[..to_length]);
}
