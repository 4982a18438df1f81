// The whole text of a stream.
ghost use Rattle.std.specs.Prelude.{◌+◌, ◌≤◌, ◌<◌, length, get_or, drop};
ghost use Rattle.texts.specs.Wrote.{Wrote};
ghost use Rattle.drawing.specs.Wave.{change_lines, later_lines, wave_text};

use crate::lines::{put_event, put_opening, put_time};

// A time with the signals that changed, if there are any.
fn put_change(
    text: &mut [u8],
    at: usize,
    inputs: &[u8],
    outputs: &[u8],
    time: usize,
    shown: u8,
    event: u8,
) -> usize
    requires { at + length (change_lines inputs.now outputs.now time shown event) ≤ length text.old }
    ensures { Wrote text.old at (change_lines inputs.now outputs.now time shown event) result text.new }
{
    if shown == 0 {
        return at;
    }
    let next = put_time(text, at, time);
    put_event(text, next, inputs, outputs, shown, event)
}

// From time 1 on.
fn put_later(text: &mut [u8], at: usize, inputs: &[u8], outputs: &[u8], events: &[u8]) -> usize
    requires events_in_bounds { at + length (later_lines inputs.now outputs.now 1 (get_or events.now 0 0) (drop 1 events.now)) ≤ length text.old }
    requires events_nonzero { 0 < length events.now }
    ensures { Wrote text.old at (later_lines inputs.now outputs.now 1 (get_or events.now 0 0) (drop 1 events.now)) result text.new }
{
    let mut next = at;
    let mut before = events[0];
    for time in 1..events.len() {
        let event = events[time];
        next = put_change(text, next, inputs, outputs, time, before ^ event, event);
        before = event;
    }
    put_time(text, next, events.len())
}

pub fn put_text(text: &mut [u8], inputs: &[u8], outputs: &[u8], events: &[u8]) -> usize
    requires { length (wave_text inputs.now outputs.now events.now) ≤ length text.old }
    ensures { Wrote text.old 0 (wave_text inputs.now outputs.now events.now) result text.new }
{
    let next = put_opening(text, 0, inputs, outputs);
    if events.len() == 0 {
        return next;
    }
    let later = put_event(text, next, inputs, outputs, 255, events[0]);
    put_later(text, later, inputs, outputs, events)
}
