// The writer: the checks in their order, then the text.
ghost use Rattle.std.specs.Prelude.{◌≡◌, ◌≤◌};
ghost use Rattle.policy.specs.Check.{all_pass};
ghost use Rattle.drawing.specs.Events.{SignalsGood};
ghost use Rattle.refusals.specs.Refused.{told};
ghost use Rattle.waves.specs.Promise.{WritePromise};
ghost use Rattle.waves.specs.BySignals.{good_for, WrittenBy};

use crate::tags::tags_of;
use drawing::{put_text, text_length};
use refusals::Refusal;
use tracing::ones;

// No event has a bit beyond the signals.
fn events_good(inputs: usize, outputs: usize, events: &[u8]) -> bool
    requires { (inputs ≤ 4) × (outputs ≤ 4) }
    ensures { result ≡ all_pass (good_for inputs outputs) events.now }
{
    let x_last = ones(inputs);
    let y_last = ones(outputs);
    for event in events {
        if x_last < *event % 16 || y_last < *event / 16 {
            return false;
        }
    }
    true
}

// The policy passes its checks.
fn write_checked(
    inputs: &[u8],
    outputs: &[u8],
    events: &[u8],
    text: &mut [u8],
) -> Result<usize, Refusal>
    requires { SignalsGood inputs.now outputs.now }
    ensures { WrittenBy inputs.now outputs.now events.now text.old (told result) text.new }
{
    if 16384 < events.len() {
        return Err(Refusal::ManyEvents);
    }
    if !events_good(inputs.len(), outputs.len(), events) {
        return Err(Refusal::BadEvent);
    }
    let length = text_length(inputs, outputs, events);
    if text.len() < length {
        return Err(Refusal::NoRoom);
    }
    Ok(put_text(text, inputs, outputs, events))
}

// Writes the released stream for a wave viewer: how long its text is.
pub fn write(file: &[u8], events: &[u8], text: &mut [u8]) -> Result<usize, Refusal>
    ensures { WritePromise file.now events.now text.old (told result) text.new }
{
    let tags = tags_of(file)?;
    write_checked(tags.inputs, tags.outputs, events, text)
}
