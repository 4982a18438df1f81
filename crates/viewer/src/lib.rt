// What `wave` decides on slices: the input of `enforce`, and the file for a wave viewer.
#![tactic(auto)]

ghost use Rattle.std.specs.Prelude.{◌≡◌, length};
ghost use Rattle.printing.specs.Reply.{Replied};
ghost use Rattle.viewer.specs.Shown.{file_or_line, shown};

use console::{MARKS, outcome};
use frames::{EVENTS, events_in, policy_in};
use printing::put_refused;

// The text at the most: 16,384 events with a change of every signal at each.
pub const TEXT: usize = 508119;

// The stream is released: its file.
fn write_file(file: &[u8], released: &[u8], text: &mut [u8]) -> usize
    requires { length text.old ≡ 508119 }
    ensures { Replied text.old (file_or_line file.now released.now) result text.new }
{
    match waves::write(file, released, text) {
        Ok(length) => length,
        Err(refusal) => put_refused(text, 0, u8::from(refusal)),
    }
}

// The line of the first refusal, or the file of what is released.
fn view(reading: u8, input: &[u8], marks: &mut [u8], released: &mut [u8], text: &mut [u8]) -> usize
    requires { (length marks.old ≡ 65536) × (length released.old ≡ 16384) × (length text.old ≡ 508119) }
    ensures { Replied text.old (shown reading input.now) result text.new }
{
    match outcome(reading, input, marks, released) {
        Err(refusal) => put_refused(text, 0, u8::from(refusal)),
        Ok(_) => {
            let events = events_in(input);
            let count = events.len();
            write_file(policy_in(input), &released[..count], text)
        }
    }
}

// Writes what `wave` writes for the input under the reading, and returns its length. The marks and the released events are the program's scratch: what they
// hold, before and afterwards, is nobody's concern.
pub fn respond(
    reading: u8,
    input: &[u8],
    marks: &mut [u8; MARKS],
    released: &mut [u8; EVENTS],
    text: &mut [u8; TEXT],
) -> usize
    ensures { Replied text.old (shown reading input.now) result text.new }
{
    view(reading, input, marks, released, text)
}
