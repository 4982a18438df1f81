// The whole reply to an input.
ghost use Rattle.std.specs.Prelude.{◌≡◌, true, ◌+◌, ◌*◌, ◌≤◌, length};
ghost use Rattle.policy.specs.Rules.{start};
ghost use Rattle.policy.specs.File.{policy_of};
ghost use Rattle.policy.specs.Number.{states};
ghost use Rattle.policy.specs.Check.{all_pass};
ghost use Rattle.stepping.specs.State.{place};
ghost use Rattle.stepping.specs.Code.{start_state};
ghost use Rattle.enforcer.specs.Entries.{event_good};
ghost use Rattle.stepping.specs.Ready.{Laid};
ghost use Rattle.trimming.specs.Table.{marks_of};
ghost use Rattle.sentences.specs.Text.{tick_room};
ghost use Rattle.telling.specs.Asked.{Asked};
ghost use Rattle.telling.specs.Told.{ToldFrom};
ghost use Rattle.telling.specs.Prints.{Prints, Writes, Startable};

use crate::tell::tell;
use console::{MARKS, outcome};
use counting::count;
use enforcer::layout_for;
use frames::{EVENTS, events_in, policy_in};
use policy::Layout;
use printing::{put_refused, put_verdict};

// The text at the most: a verdict, 66 bytes, and for each event three lines, 373 bytes.
pub const TEXT: usize = 66 + 373 * EVENTS;

// The counts are made once, and the ticks are told from the start.
fn tell_counted(
    file: &[u8],
    layout: Layout,
    marks: &[u8],
    ticks: &mut [u32],
    rests: &mut [u32],
    events: &[u8],
    text: &mut [u8],
    at: usize,
) -> usize
    requires asked { Asked file.now layout marks.now start_state × Laid file.now layout × (marks.now ≡ marks_of (policy_of layout.reading file.now)) }
    requires ticks_len { (length ticks.old ≡ states (policy_of layout.reading file.now)) × (length rests.old ≡ states (policy_of layout.reading file.now)) }
    requires events_len_bound { (length events.now ≤ 16384) × (all_pass (event_good layout.reading file.now) events.now ≡ true) × (at + tick_room * length events.now ≤ length text.old) }
    ensures { ToldFrom (policy_of layout.reading file.now) marks.now (place layout.clocks start_state) events.now text.old at result text.new }
{
    count(file, layout, marks, ticks, rests);
    tell(file, layout, marks, ticks, rests, events, text, at)
}

// Nothing is refused: the ticks are told from the start.
fn tell_all(
    reading: u8,
    file: &[u8],
    marks: &[u8],
    ticks: &mut [u32],
    rests: &mut [u32],
    events: &[u8],
    text: &mut [u8],
    at: usize,
) -> usize
    requires startable { Startable reading file.now marks.now events.now }
    requires ticks_len { (length ticks.old ≡ 65536) × (length rests.old ≡ 65536) × (length events.now ≤ 16384) × (at + tick_room * length events.now ≤ length text.old) }
    ensures { ToldFrom (policy_of reading file.now) marks.now (start (policy_of reading file.now)) events.now text.old at result text.new }
{
    // What was prepared and run has passed these refusals.
    let Ok(layout) = layout_for(reading, file, marks) else {
        unreachable!();
    };
    let states = layout.states;
    tell_counted(
        file,
        layout,
        marks,
        &mut ticks[..states],
        &mut rests[..states],
        events,
        text,
        at,
    )
}

// The line of the first refusal, or the lines of the run with the reasons.
fn reply(
    reading: u8,
    input: &[u8],
    marks: &mut [u8],
    released: &mut [u8],
    ticks: &mut [u32],
    rests: &mut [u32],
    text: &mut [u8],
) -> usize
    requires { (length marks.old ≡ 65536) × (length released.old ≡ 16384) × (length ticks.old ≡ 65536) × (length rests.old ≡ 65536) × (length text.old ≡ 66 + tick_room * 16384) }
    ensures { Writes (Prints reading input.now) text.old result text.new }
{
    match outcome(reading, input, marks, released) {
        Err(refusal) => put_refused(text, 0, u8::from(refusal)),
        Ok(summary) => {
            let next = put_verdict(text, 0, summary.verdict, summary.states, summary.live);
            let file = policy_in(input);
            let events = events_in(input);
            let states = summary.states;
            tell_all(
                reading,
                file,
                &marks[..states],
                ticks,
                rests,
                events,
                text,
                next,
            )
        }
    }
}

// Writes what `why` prints for the input under the reading, and returns its length. All slices but the text are the program's scratch: what they hold, before
// and afterwards, is nobody's concern.
pub fn respond(
    reading: u8,
    input: &[u8],
    marks: &mut [u8; MARKS],
    released: &mut [u8; EVENTS],
    ticks: &mut [u32; MARKS],
    rests: &mut [u32; MARKS],
    text: &mut [u8; TEXT],
) -> usize
    ensures { Writes (Prints reading input.now) text.old result text.new }
{
    reply(reading, input, marks, released, ticks, rests, text)
}
