// Prints the text of a policy file: `show FILE`.
#![tactic(auto)]

use files::NAME;
use files::words::{word, word_count};

fn main(rt: HostRuntime) {
    if word_count(&rt) != 2 {
        let _ = rt.eprintln("usage: show FILE");
        return;
    }
    let mut path = [0u8; NAME];
    let length = word(&rt, 1, &mut path);
    scribe::show_file(&rt, &path[..length]);
}
