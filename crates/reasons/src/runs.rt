// The reasons for a run of events. The tables are made once; then each event is explained in the state that the run has there.
ghost use Rattle.std.specs.Prelude.{◌≡◌, true, ℕ, ◌≤◌, min, length};
ghost use Rattle.policy.specs.File.{policy_of};
ghost use Rattle.policy.specs.Number.{states};
ghost use Rattle.policy.specs.Check.{all_pass};
ghost use Rattle.index.specs.Index.{index_of};
ghost use Rattle.enforcer.specs.Entries.{event_good, state_refusal};
ghost use Rattle.stepping.specs.Ready.{Laid};
ghost use Rattle.enforcer.specs.Promises.{ran_said};
ghost use Rattle.prepare.specs.Enforcing.{AsPrepared};
ghost use Rattle.counting.specs.Counted.{CountsOf};
ghost use Rattle.counting.specs.OtherMarks.{other_marks};
ghost use Rattle.refusals.specs.Refused.{told};
ghost use Rattle.reasons.specs.Runs.{room_for, early_refusal, walked, WhyRunAnswers, WhyRunPromise};
ghost use Rattle.reasons.specs.RunLaws.{Walking};

use crate::words::both;
use counting::count_in;
use enforcer::{check_state, events_good, layout_for};
use explaining::halves::tell;
use index::{NUMBERS, own_at};
use policy::Layout;
use refusals::Refusal;
use stepping::State;

// The layout, where the slices are long enough. 22 and 1 to 10; 23 where the shortest work slice is too short, and 14 where the slice for the words is.
pub fn room_for(
    reading: u8,
    file: &[u8],
    marks: &[u8],
    work: usize,
    events: usize,
    words: usize,
) -> Result<Layout, Refusal>
    ensures { told result ≡ room_for reading file.now marks.now work events words }
{
    let layout = layout_for(reading, file, marks)?;
    if work < layout.states {
        return Err(Refusal::LittleWork);
    }
    if words < events {
        return Err(Refusal::NoRoom);
    }
    Ok(layout)
}

// The least of eight lengths.
pub fn shortest(
    ticks: usize,
    rests: usize,
    prepared: usize,
    stack: usize,
    from: usize,
    ways: usize,
    bound: usize,
    place: usize,
) -> usize
    ensures { result ≡ min ticks (min rests (min prepared (min stack (min from (min ways (min bound place)))))) }
{
    let five = stack.min(from.min(ways.min(bound.min(place))));
    ticks.min(rests.min(prepared.min(five)))
}

// A word for each event, by the tables and the index of the rules. Returns the state after them.
fn explain_each(
    file: &[u8],
    layout: Layout,
    index: &[u16],
    marks: &[u8],
    ticks: &[u32],
    rests: &[u32],
    start: State,
    events: &[u8],
    words: &mut [u64],
) -> State
    requires walking { Walking file.now layout marks.now events.now words.old start 0 words.old start × (length events.now ≤ length words.old) }
    requires as_prepared { AsPrepared (policy_of layout.reading file.now) marks.now × CountsOf (policy_of layout.reading file.now) ticks.now rests.now × (all_pass (event_good layout.reading file.now) events.now ≡ true) × (index.now ≡ index_of file.now) }
    ensures { Walking file.now layout marks.now events.now words.old start (length events.now) words.new result }
{
    let mut state = start;
    for (i, event) in events.iter().enumerate() {
        let own = own_at(file, layout, index, state.location);
        let told = tell(
            file,
            layout,
            own,
            marks,
            ticks,
            rests,
            state,
            *event % 16,
            *event / 16,
        );
        words[i] = both(told.reasons);
        state = told.state;
    }
    state
}

// The same with an index of its own.
fn explain_all(
    file: &[u8],
    layout: Layout,
    marks: &[u8],
    ticks: &[u32],
    rests: &[u32],
    start: State,
    events: &[u8],
    words: &mut [u64],
) -> State
    requires walking { Walking file.now layout marks.now events.now words.old start 0 words.old start × (length events.now ≤ length words.old) }
    requires as_prepared { AsPrepared (policy_of layout.reading file.now) marks.now × CountsOf (policy_of layout.reading file.now) ticks.now rests.now × (all_pass (event_good layout.reading file.now) events.now ≡ true) }
    ensures { Walking file.now layout marks.now events.now words.old start (length events.now) words.new result }
{
    let mut index = [0; NUMBERS];
    index::fill(file, layout, &mut index);
    explain_each(
        file, layout, &index, marks, ticks, rests, start, events, words,
    )
}

// Past 16, with the tables made: 20 where the marks are others than those of prepare, then 15, then the words.
fn explained(
    file: &[u8],
    layout: Layout,
    marks: &[u8],
    others: bool,
    ticks: &[u32],
    rests: &[u32],
    state: State,
    events: &[u8],
    words: &mut [u64],
) -> Result<State, Refusal>
    requires laid { Laid file.now layout × (others ≡ other_marks (policy_of layout.reading file.now) marks.now) × CountsOf (policy_of layout.reading file.now) ticks.now rests.now }
    requires file_in_bounds { (states (policy_of layout.reading file.now) ≤ length marks.now) × (state_refusal layout.reading file.now marks.now state ≡ 0) × (length events.now ≤ length words.old) }
    ensures { (work : ℕ) → early_refusal layout.reading file.now marks.now state events.now words.old work ≡ 0 → WhyRunAnswers layout.reading file.now marks.now state events.now words.old work (ran_said (walked state (length events.now) result) words.new) }
{
    if others {
        return Err(Refusal::OtherMarks);
    }
    if !events_good(file, layout, events) {
        return Err(Refusal::BadEvent);
    }
    Ok(explain_all(file, layout, marks, ticks, rests, state, events, words))
}

// Writes for each event the word of what `why` answers in the state that the run has there: 0 where neither half is edited. Returns the state after them.
// The last eight slices are scratch, each with an entry for each state. Refusals 22, 1 to 10, 23, 14, 16, 20, 15.
pub fn why_run(
    reading: u8,
    file: &[u8],
    marks: &[u8],
    state: State,
    events: &[u8],
    words: &mut [u64],
    ticks: &mut [u32],
    rests: &mut [u32],
    prepared: &mut [u8],
    stack: &mut [u16],
    from: &mut [u16],
    ways: &mut [u16],
    bound: &mut [u16],
    place: &mut [u16],
) -> Result<State, Refusal>
    ensures { WhyRunPromise reading file.now marks.now state events.now words.old (record { ticks = ticks.old; rests = rests.old; prepared = prepared.old; work = record { stack = stack.old; from = from.old; ways = ways.old; bound = bound.old; place = place.old } }) (walked state (length events.now) result) words.new (record { ticks = ticks.new; rests = rests.new; prepared = prepared.new; work = record { stack = stack.new; from = from.new; ways = ways.new; bound = bound.new; place = place.new } }) }
{
    let work = shortest(
        ticks.len(),
        rests.len(),
        prepared.len(),
        stack.len(),
        from.len(),
        ways.len(),
        bound.len(),
        place.len(),
    );
    let layout = room_for(reading, file, marks, work, events.len(), words.len())?;
    check_state(file, layout, marks, state)?;
    let states = layout.states;
    let others = count_in(
        file,
        layout,
        marks,
        &mut ticks[..states],
        &mut rests[..states],
        prepared,
        stack,
        from,
        ways,
        bound,
        place,
    );
    explained(
        file,
        layout,
        marks,
        others,
        &ticks[..states],
        &rests[..states],
        state,
        events,
        words,
    )
}
