// What `compile` and `show` do with files: the file of a text is written whole or not at all, and what there is to say is printed.
#![tactic(auto)]

use files::faults::tell;
use files::{read_file, write_file};
use policy::limits::FILE;
use translating::{to_file, to_text};

// The longest text, and the longest policy; and of each one byte more, which tells that there are more.
const TEXT: usize = to_file::TEXT + 1;

const POLICY: usize = FILE + 1;

// The text is longer than what is read of it.
fn tell_long(rt: &HostRuntime, path: &[u8]) {
    let _ = rt.stderr().write_all(path);
    let _ = rt.stderr().write_all(b": longer than 65536 bytes\n");
}

// Compiles the text in the file `from`, writes its policy to the file `to`, and prints how long that is, or a refusal and its line.
pub fn compile_file(rt: &HostRuntime, from: &[u8], to: &[u8]) {
    let mut text = [0u8; TEXT];
    let read = read_file(rt, from, &mut text);
    if to_file::TEXT < read {
        tell_long(rt, from);
    }
    let mut file = [0u8; FILE];
    let mut line = [0u8; to_file::LINE];
    let reply = to_file::respond(&text[..read], &mut file, &mut line);
    let length = reply.file;
    let printed = reply.line;
    if 0 < length {
        write_file(rt, to, &file[..length]);
    }
    if let Err(error) = rt.write_all(&line[..printed]) {
        tell(rt, b"compile: standard output", error);
    }
}

// Prints the text of the policy file, or a refusal.
pub fn show_file(rt: &HostRuntime, path: &[u8]) {
    let mut file = [0u8; POLICY];
    let read = read_file(rt, path, &mut file);
    let mut text = [0u8; to_text::TEXT];
    let printed = to_text::respond(&file[..read], &mut text);
    if let Err(error) = rt.write_all(&text[..printed]) {
        tell(rt, b"show: standard output", error);
    }
}
