// The whole reply to an input.
ghost use Rattle.std.specs.Prelude.{◌≡◌, length};
ghost use Rattle.console.specs.Printed.{printed};
ghost use Rattle.printing.specs.Reply.{Replied};

use crate::checks::outcome;
use frames::{EVENTS, events_in};
use printing::{put_refused, put_ticks, put_verdict};
use stepping::State;

// As many marks as a policy may have states.
pub const MARKS: usize = State::STATES;

// The text at the most: a verdict, 66 bytes, and for each event a line, 21 bytes.
pub const TEXT: usize = 66 + 21 * EVENTS;

// The reading that the program uses.
const READING: u8 = 1;

// The line of the first refusal, or the lines of the run.
fn reply(input: &[u8], marks: &mut [u8], released: &mut [u8], text: &mut [u8]) -> usize
    requires { (length marks.old ≡ 65536) × (length released.old ≡ 16384) × (length text.old ≡ 344130) }
    ensures { Replied text.old (printed input.now) result text.new }
{
    match outcome(READING, input, marks, released) {
        Err(refusal) => put_refused(text, 0, u8::from(refusal)),
        Ok(summary) => {
            let next = put_verdict(text, 0, summary.verdict, summary.states, summary.live);
            put_ticks(text, next, events_in(input), released)
        }
    }
}

// Writes what `enforce` prints for the input, and returns its length. The marks and the released events are the program's scratch: what they hold, before
// and afterwards, is nobody's concern. The text is long enough for a verdict and a line for each of 16,384 events.
pub fn respond(
    input: &[u8],
    marks: &mut [u8; MARKS],
    released: &mut [u8; EVENTS],
    text: &mut [u8; TEXT],
) -> usize
    ensures { Replied text.old (printed input.now) result text.new }
{
    reply(input, marks, released, text)
}
