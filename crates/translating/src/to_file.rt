// What `compile` decides: the policy file that it writes, and the line that it prints.
ghost use Rattle.std.specs.Prelude.{◌≡◌, ◌≤◌, length};
ghost use Rattle.texts.specs.Wrote.{Wrote};
ghost use Rattle.printing.specs.Reply.{Replied};
ghost use Rattle.translating.specs.ToFile.{stopped_line, compiled_line, written, printed};

use compiling::compile;
use policy::limits::FILE;
use refusals::Refusal;
use texts::{put_about, put_bytes, put_decimal};

// The longest text that is read.
pub const TEXT: usize = 65536;

// The line at the most: 8 + 3 + 6 + 20 + 1 bytes.
pub const LINE: usize = 38;

// How many bytes there are: of the policy file, and of the line.
#[derive(Clone, Copy)]
pub struct Outcome {
    pub file: usize,
    pub line: usize,
}

// A refusal, and the line of the text that it stands in.
fn put_stopped(line: &mut [u8], refusal: u8, at: usize) -> usize
    requires { 38 ≤ length line.old }
    ensures { Wrote line.old 0 (stopped_line refusal at) result line.new }
{
    let place = put_about(line, 0, b"refused ", refusal as usize, b" line ");
    let end = put_decimal(line, place, at);
    put_bytes(line, end, b"\n")
}

// How long the file is.
fn put_compiled(line: &mut [u8], bytes: usize) -> usize
    requires { 38 ≤ length line.old }
    ensures { Wrote line.old 0 (compiled_line bytes) result line.new }
{
    put_about(line, 0, b"compiled ", bytes, b" bytes\n")
}

fn reply(text: &[u8], file: &mut [u8], line: &mut [u8]) -> Outcome
    requires { (length file.old ≡ 5974) × (length line.old ≡ 38) }
    ensures replied { Replied file.old (written text.now) result.file file.new }
    ensures replied_2 { Replied line.old (printed text.now) result.line line.new }
{
    // The refusal of a longer text belongs to no line.
    if TEXT < text.len() {
        return Outcome {
            file: 0,
            line: put_stopped(line, u8::from(Refusal::NoPlace), 0),
        };
    }
    match compile(text, file) {
        Ok(length) => Outcome {
            file: length,
            line: put_compiled(line, length),
        },
        Err(stopped) => Outcome {
            file: 0,
            line: put_stopped(line, u8::from(stopped.refusal), stopped.line),
        },
    }
}

// Writes the policy file of the text and what `compile` prints, and returns both lengths. A refusal writes no file.
pub fn respond(text: &[u8], file: &mut [u8; FILE], line: &mut [u8; LINE]) -> Outcome
    ensures replied { Replied file.old (written text.now) result.file file.new }
    ensures replied_2 { Replied line.old (printed text.now) result.line line.new }
{
    reply(text, file, line)
}
