// Reads a policy and events from standard input, and prints what the enforcer releases.
#![tactic(auto)]

use files::faults::tell;
use files::read_full;

fn main(rt: HostRuntime) {
    let mut input = [0u8; frames::INPUT];
    let (read, _) = read_full(&mut rt.stdin(), &mut input);
    let mut marks = [0u8; console::MARKS];
    let mut released = [0u8; frames::EVENTS];
    let mut text = [0u8; console::TEXT];
    let written = console::respond(&input[..read], &mut marks, &mut released, &mut text);
    if let Err(error) = rt.write_all(&text[..written]) {
        tell(&rt, b"enforce: standard output", error);
    }
}
