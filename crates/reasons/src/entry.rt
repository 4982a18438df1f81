// The entry, and the tables that it keeps.
ghost use Rattle.std.specs.Prelude.{◌≡◌, length};
ghost use Rattle.reasons.specs.Promise.{WhyPromise, SmallReasons, answer_said};

use crate::tables::counted;
use explaining::{Reasons, reasons};
use refusals::Refusal;
use stepping::State;

// In tables that are lent, with an entry for each state that a policy can have.
fn explain(
    reading: u8,
    file: &[u8],
    marks: &[u8],
    state: State,
    x: u8,
    y: u8,
    ticks: &mut [u32],
    rests: &mut [u32],
) -> Result<Reasons, Refusal>
    requires { (length ticks.old ≡ 65536) × (length rests.old ≡ 65536) }
    ensures { WhyPromise reading file.now marks.now state x y (answer_said result) × SmallReasons (answer_said result) }
{
    let layout = counted(reading, file, marks, state, x, y, ticks, rests)?;
    let states = layout.states;
    Ok(reasons(
        file,
        layout,
        marks,
        &ticks[..states],
        &rests[..states],
        state,
        x,
        y,
    ))
}

fn explain_in(
    reading: u8,
    file: &[u8],
    marks: &[u8],
    state: State,
    x: u8,
    y: u8,
    ticks: &mut [u32; State::STATES],
    rests: &mut [u32; State::STATES],
) -> Result<Reasons, Refusal>
    ensures { WhyPromise reading file.now marks.now state x y (answer_said result) × SmallReasons (answer_said result) }
{
    explain(reading, file, marks, state, x, y, ticks, rests)
}

// The reasons for x and y as read. The counts of all states stand in tables of its own, 512 KB on the stack, beside the room of `count`.
pub fn why(
    reading: u8,
    file: &[u8],
    marks: &[u8],
    state: State,
    x: u8,
    y: u8,
) -> Result<Reasons, Refusal>
    ensures { WhyPromise reading file.now marks.now state x y (answer_said result) × SmallReasons (answer_said result) }
{
    let mut ticks = [0u32; State::STATES];
    let mut rests = [0u32; State::STATES];
    explain_in(reading, file, marks, state, x, y, &mut ticks, &mut rests)
}
