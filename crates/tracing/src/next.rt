// The next time that stands in a text, with the event that begins there.
ghost use Rattle.std.specs.Prelude.{◌≤◌, length};
ghost use Rattle.tracing.specs.Next.{NextRead};

use crate::read::{read_event, read_time};

// The closing time; or a time, its event, and the position after its changes.
#[derive(Clone, Copy)]
pub enum Next {
    Closes(usize),
    Changes(usize, u8, usize),
}

// From the time `from` on, after the event `before`. None where what stands there is no line that may.
pub(crate) fn read_next(
    text: &[u8],
    at: usize,
    inputs: &[u8],
    outputs: &[u8],
    from: usize,
    before: u8,
) -> Option<Next>
    requires { (at ≤ length text.now) × (length inputs.now ≤ 4) × (length outputs.now ≤ 4) }
    ensures { NextRead inputs.now outputs.now text.now at from before result }
{
    let line = read_time(text, at)?;
    let time = line.time;
    if time < from {
        return None;
    }
    let after = line.next;
    if after == text.len() {
        return Some(Next::Closes(time));
    }
    let lines = read_event(text, after, inputs, outputs);
    let shown = lines.shown;
    if shown == 0 {
        return None;
    }
    let event = before ^ shown;
    if event & shown != lines.values {
        return None;
    }
    Some(Next::Changes(time, event, lines.next))
}
