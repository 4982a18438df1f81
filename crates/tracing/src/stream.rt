// The stream of a text.
ghost use Rattle.std.specs.Prelude.{◌≡◌, ◌-◌, ◌^◌, ◌≤◌, length, drop};
ghost use Rattle.drawing.specs.Events.{SignalsGood, EventFits};
ghost use Rattle.tracing.specs.Found.{LaterFound, BodyFound, FoundStream};

use crate::next::{Next, read_next};
use crate::read::read_event;
use crate::store::{fill, put};
use drawing::put_opening;

// From time 1 on, after the first event. The events are stored as far as the slice reaches. Gives how many events there are.
fn read_later(
    text: &[u8],
    at: usize,
    inputs: &[u8],
    outputs: &[u8],
    first: u8,
    events: &mut [u8],
) -> Option<usize>
    requires at_in_bounds { at ≤ length text.now }
    requires signals_good { SignalsGood inputs.now outputs.now × EventFits inputs.now outputs.now first }
    ensures { LaterFound inputs.now outputs.now (drop at text.now) first events.old result events.new }
{
    let mut next = at;
    let mut count = 1;
    let mut event = first;
    // A `loop`: a step is the lines of one time, and the last says so.
    loop {
        let step = read_next(text, next, inputs, outputs, count, event)?;
        match step {
            Next::Closes(time) => {
                fill(events, count, time, event);
                return Some(time);
            }
            Next::Changes(time, changed, after) => {
                fill(events, count, time, event);
                put(events, time, changed);
                next = after;
                count = time + 1;
                event = changed;
            }
        }
    }
}

// A one for each of n signals.
pub fn ones(n: usize) -> u8
    requires { n ≤ 4 }
    ensures { (result ≡ 2 ^ n - 1) × (result ≤ 15) }
{
    (1 << n) - 1
}

// The values at time 0, then the later lines.
fn read_body(
    text: &[u8],
    at: usize,
    inputs: &[u8],
    outputs: &[u8],
    events: &mut [u8],
) -> Option<usize>
    requires at_in_bounds { at ≤ length text.now }
    requires signals_good { SignalsGood inputs.now outputs.now }
    ensures { BodyFound inputs.now outputs.now (drop at text.now) events.old result events.new }
{
    let lines = read_event(text, at, inputs, outputs);
    let every = ones(inputs.len()) + 16 * ones(outputs.len());
    if lines.shown != every {
        return None;
    }
    let first = lines.values;
    put(events, 0, first);
    read_later(text, lines.next, inputs, outputs, first, events)
}

// How many events the text has, if it is a stream's. The opening is at most 47 + 8 * 21 bytes.
pub fn read_stream(text: &[u8], inputs: &[u8], outputs: &[u8], events: &mut [u8]) -> Option<usize>
    requires { SignalsGood inputs.now outputs.now }
    ensures { FoundStream inputs.now outputs.now text.now events.old result events.new }
{
    let mut opening = [0u8; 215];
    let end = put_opening(&mut opening, 0, inputs, outputs);
    if !text.starts_with(&opening[..end]) {
        return None;
    }
    if end == text.len() {
        return Some(0);
    }
    read_body(text, end, inputs, outputs, events)
}
