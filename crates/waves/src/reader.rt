// The reader: the policy's checks, then the text is read twice, once to decide and once to store.
ghost use Rattle.drawing.specs.Events.{SignalsGood};
ghost use Rattle.refusals.specs.Refused.{told};
ghost use Rattle.waves.specs.Promise.{TakePromise};
ghost use Rattle.waves.specs.BySignals.{TakenBy};

use crate::tags::tags_of;
use refusals::Refusal;
use tracing::read_stream;

// The policy passes its checks. The text is read once with no room for its events, and then, where it is a stream's and there is room, with all of it.
fn take_checked(
    inputs: &[u8],
    outputs: &[u8],
    text: &[u8],
    events: &mut [u8],
) -> Result<usize, Refusal>
    requires { SignalsGood inputs.now outputs.now }
    ensures { TakenBy inputs.now outputs.now text.now events.old (told result) events.new }
{
    let mut nowhere = [0u8; 1];
    let Some(count) = read_stream(text, inputs, outputs, &mut nowhere) else {
        return Err(Refusal::NoWave);
    };
    if events.len() < count {
        return Err(Refusal::NoRoom);
    }
    read_stream(text, inputs, outputs, events);
    Ok(count)
}

// Takes back the stream of a text that the writer made: how many events it has.
pub fn take(file: &[u8], text: &[u8], events: &mut [u8]) -> Result<usize, Refusal>
    ensures { TakePromise file.now text.now events.old (told result) events.new }
{
    let tags = tags_of(file)?;
    take_checked(tags.inputs, tags.outputs, text, events)
}
