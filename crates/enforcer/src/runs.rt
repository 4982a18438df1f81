// A run: many ticks.
ghost use Rattle.std.specs.Prelude.{◌≡◌, true, map, ◌≤◌, length};
ghost use Rattle.policy.specs.File.{policy_of};
ghost use Rattle.policy.specs.Check.{all_pass};
ghost use Rattle.index.specs.Index.{index_of};
ghost use Rattle.stepping.specs.Tick.{ran};
ghost use Rattle.enforcer.specs.Entries.{event_of, event_good, run_from};
ghost use Rattle.stepping.specs.State.{place, state_of};
ghost use Rattle.stepping.specs.Ready.{Laid, Standing};
ghost use Rattle.enforcer.specs.Promises.{RunPromise, ran_or_none, ran_said, ran_told};

use crate::halves::{check_state, layout_for};
use correcting::tick::tick;
use index::{NUMBERS, fill, own_at};
use leading::{inputs_of, outputs_of};
use policy::Layout;
use refusals::Refusal;
use stepping::State;

// How many events were released and the state after them, with what is refused. Only 17 comes with events released.
#[derive(Clone, Copy)]
pub struct Ran {
    pub refusal: Option<Refusal>,
    pub count: usize,
    pub state: State,
}

impl Ran {
    // The run, or its refusal before any event is released, with the state that was given.
    pub fn or_none(state: State, ran: Result<Ran, Refusal>) -> Ran
        ensures { result ≡ ran_or_none state ran }
    {
        match ran {
            Ok(ran) => ran,
            Err(refusal) => Ran {
                refusal: Some(refusal),
                count: 0,
                state,
            },
        }
    }
}

// No event has a bit beyond its signals.
pub fn events_good(file: &[u8], layout: Layout, events: &[u8]) -> bool
    requires { Laid file.now layout }
    ensures { result ≡ all_pass (event_good layout.reading file.now) events.now }
{
    let inputs = inputs_of(file, layout);
    let outputs = outputs_of(file, layout);
    for event in events {
        let event = *event as usize;
        if inputs <= event % 16 || outputs <= event / 16 {
            return false;
        }
    }
    true
}

// Releases one event for each one read, until nothing may stand. The index has the rules of each location.
fn release(
    file: &[u8],
    layout: Layout,
    index: &[u16],
    marks: &[u8],
    start: State,
    events: &[u8],
    out: &mut [u8],
) -> Ran
    requires standing { Standing file.now layout marks.now start × (state_of (place layout.clocks start) ≡ start) }
    requires events_in_bounds { (length events.now ≤ length out.old) × (all_pass (event_good layout.reading file.now) events.now ≡ true) }
    requires index_value { index.now ≡ index_of file.now }
    ensures { ran_said (ran_told result) out.new ≡ run_from start out.old 0 (ran (policy_of layout.reading file.now) marks.now (place layout.clocks start) (map event_of events.now)) }
{
    let mut state = start;
    for (i, event) in events.iter().enumerate() {
        let own = own_at(file, layout, index, state.location);
        let Some(t) = tick(file, layout, own, marks, state, *event % 16, *event / 16) else {
            return Ran {
                refusal: Some(Refusal::NothingStands),
                count: i,
                state,
            };
        };
        out[i] = t.x + t.y * 16;
        state = t.state;
    }
    Ran {
        refusal: None,
        count: events.len(),
        state,
    }
}

// The run, past its refusals: 22, 1 to 10, 14, 16, then 15 for all events before the first is released.
fn started(
    reading: u8,
    file: &[u8],
    marks: &[u8],
    state: State,
    events: &[u8],
    out: &mut [u8],
) -> Result<Ran, Refusal>
    ensures { RunPromise reading file.now marks.now state events.now out.old (ran_told (ran_or_none state result)) out.new }
{
    let layout = layout_for(reading, file, marks)?;
    if out.len() < events.len() {
        return Err(Refusal::NoRoom);
    }
    check_state(file, layout, marks, state)?;
    if !events_good(file, layout, events) {
        return Err(Refusal::BadEvent);
    }
    let mut index = [0; NUMBERS];
    fill(file, layout, &mut index);
    Ok(release(file, layout, &index, marks, state, events, out))
}

// 22, 1 to 10, 14, 16, then 15 for all events before the first is released, 17. Only 17 comes with events released, and the rest of the slice untouched.
pub fn run(
    reading: u8,
    file: &[u8],
    marks: &[u8],
    state: State,
    events: &[u8],
    out: &mut [u8],
) -> Ran
    ensures { RunPromise reading file.now marks.now state events.now out.old (ran_told result) out.new }
{
    let ran = started(reading, file, marks, state, events, out);
    Ran::or_none(state, ran)
}
