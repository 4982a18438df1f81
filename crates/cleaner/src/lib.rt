// What `clean` does with files: reads the policy, writes the cleaned one whole or not at all, and prints what goes.
#![tactic(auto)]

use files::faults::tell;
use files::{read_file, write_file};
use policy::limits::FILE;

// The longest policy, and one byte more: it tells that bytes are left over.
const INPUT: usize = FILE + 1;

// Cleans the policy in the file `from` under the reading, writes it to the file `to`, and prints what goes, or a refusal.
pub fn clean_file(rt: &HostRuntime, reading: u8, from: &[u8], to: &[u8]) {
    let mut input = [0u8; INPUT];
    let read = read_file(rt, from, &mut input);
    let mut cleaned = [0u8; FILE];
    let mut list = [0u8; listing::LIST];
    let mut text = [0u8; listing::TEXT];
    let reply = listing::respond(reading, &input[..read], &mut cleaned, &mut list, &mut text);
    let left = reply.cleaned;
    let printed = reply.text;
    if 0 < left {
        write_file(rt, to, &cleaned[..left]);
    }
    if let Err(error) = rt.write_all(&text[..printed]) {
        tell(rt, b"clean: standard output", error);
    }
}
