// What the checks on an input come to, in one order for every program that reads what `enforce` reads.
ghost use Rattle.std.specs.Prelude.{◌≡◌, length};
ghost use Rattle.refusals.specs.Refused.{refusal_in, told};
ghost use Rattle.console.specs.OutcomeLaws.{Prepares, RanEvents, OutcomePromise};

use enforcer::run;
use fast::prepare;
use frames::{check_events, check_input, events_in, policy_in};
use prepare::Summary;
use refusals::Refusal;
use stepping::State;

// The policy is prepared: the refusal of the events, and with none they are released.
fn enforce_events(
    reading: u8,
    input: &[u8],
    file: &[u8],
    marks: &[u8],
    released: &mut [u8],
) -> Result<(), Refusal>
    requires { Prepares reading input.now file.now marks.now × (length released.old ≡ 16384) }
    ensures { RanEvents reading input.now (refusal_in result) released.new }
{
    check_events(input)?;
    let events = events_in(input);
    let ran = run(reading, file, marks, State::start(), events, released);
    match ran.refusal {
        Some(refusal) => Err(refusal),
        None => Ok(()),
    }
}

// The reading and the policy are checked, it is prepared, then come the events. The summary is prepare's.
pub fn outcome(
    reading: u8,
    input: &[u8],
    marks: &mut [u8],
    released: &mut [u8],
) -> Result<Summary, Refusal>
    requires { (length marks.old ≡ 65536) × (length released.old ≡ 16384) }
    ensures { OutcomePromise reading input.now (told result) marks.new released.new }
{
    check_input(reading, input)?;
    let file = policy_in(input);
    let summary = prepare(reading, file, marks)?;
    let states = summary.states;
    enforce_events(reading, input, file, &marks[..states], released)?;
    Ok(summary)
}
