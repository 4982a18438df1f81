// A line for each tick, and its reasons.
ghost use Rattle.std.specs.Prelude.{◌≡◌, true, ◌+◌, ◌*◌, ◌/◌, ◌%◌, ◌^◌, ◌≤◌, ◌<◌, length};
ghost use Rattle.policy.specs.Rules.{input_values, output_values};
ghost use Rattle.policy.specs.File.{policy_of};
ghost use Rattle.policy.specs.Check.{all_pass};
ghost use Rattle.stepping.specs.State.{place};
ghost use Rattle.stepping.specs.Code.{start_state};
ghost use Rattle.enforcer.specs.Entries.{event_good};
ghost use Rattle.counting.specs.Counted.{CountsOf};
ghost use Rattle.sentences.specs.Text.{tick_room};
ghost use Rattle.telling.specs.Asked.{Asked};
ghost use Rattle.telling.specs.Told.{ToldTick, ToldFrom};

use policy::Layout;
use printing::put_tick;
use sentences::put_reasons;
use stepping::{State, own_of};

// The tick that is told next: its number, the state before it, and where its text begins.
#[derive(Clone, Copy)]
pub struct NextTick {
    pub number: usize,
    pub state: State,
    pub at: usize,
}

// One tick: its line, at most 21 bytes, and the lines of its reasons. What is released, and the state after it, come with the reasons.
fn tell_tick(
    file: &[u8],
    layout: Layout,
    marks: &[u8],
    ticks: &[u32],
    rests: &[u32],
    this: NextTick,
    event: u8,
    text: &mut [u8],
) -> NextTick
    requires asked { Asked file.now layout marks.now this.state × CountsOf (policy_of layout.reading file.now) ticks.now rests.now }
    requires event_bound { (event % 16 < input_values (policy_of layout.reading file.now)) × (event / 16 < output_values (policy_of layout.reading file.now)) }
    requires number_bound { (this.number < 10 ^ 5) × (this.at + tick_room ≤ length text.old) }
    ensures { ToldTick file.now layout marks.now this event text.old result text.new }
{
    let following = this.number + 1;
    let state = this.state;
    let own = own_of(file, layout, state);
    let told = explaining::halves::tell(
        file,
        layout,
        own,
        marks,
        ticks,
        rests,
        state,
        event % 16,
        event / 16,
    );
    let next = put_tick(text, this.at, this.number, event, told.x + told.y * 16);
    let reasons = told.reasons;
    let end = put_reasons(text, next, file, layout, reasons);
    let after = told.state;
    NextTick {
        number: following,
        state: after,
        at: end,
    }
}

// All ticks of a stream from the start.
pub(crate) fn tell(
    file: &[u8],
    layout: Layout,
    marks: &[u8],
    ticks: &[u32],
    rests: &[u32],
    events: &[u8],
    text: &mut [u8],
    at: usize,
) -> usize
    requires asked { Asked file.now layout marks.now start_state × CountsOf (policy_of layout.reading file.now) ticks.now rests.now }
    requires events_len_bound { (length events.now ≤ 16384) × (all_pass (event_good layout.reading file.now) events.now ≡ true) × (at + tick_room * length events.now ≤ length text.old) }
    ensures { ToldFrom (policy_of layout.reading file.now) marks.now (place layout.clocks start_state) events.now text.old at result text.new }
{
    let start = State::start();
    let mut this = NextTick {
        number: 1,
        state: start,
        at,
    };
    for &event in events {
        this = tell_tick(file, layout, marks, ticks, rests, this, event, text);
    }
    this.at
}
