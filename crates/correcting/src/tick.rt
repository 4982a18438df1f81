// One tick: the input first, without a look at y; then the output; then the state moves. An event that as read takes the state to a marked one is what both halves keep, so it is asked about before either.
ghost use Rattle.std.specs.Prelude.{◌≡◌, true, List, ℕ, ◌<◌};
ghost use Rattle.policy.specs.File.{policy_of, rules_of};
ghost use Rattle.policy.specs.Own.{own_of};
ghost use Rattle.policy.specs.Rules.{input_values, output_values};
ghost use Rattle.stepping.specs.Tick.{output_choice, output_tick, tick};
ghost use Rattle.stepping.specs.Code.{event_xy};
ghost use Rattle.stepping.specs.State.{place};
ghost use Rattle.stepping.specs.Ready.{Laid, HereOf, Ready, Standing};
ghost use Rattle.choice.specs.Said.{choice_said};
ghost use Rattle.correcting.specs.Chosen.{tick_from};

use crate::arrive::arrival;
use crate::choose::choose_output;
use choice::{nearest, standing};
use leading::{allowed, inputs_of, outputs_of, reaches};
use policy::{Layout, Own};
use stepping::{Here, State, here_by};

// What a tick releases, and the state after it.
#[derive(Clone, Copy)]
pub struct Ticked {
    pub state: State,
    pub x: u8,
    pub y: u8,
}

// The event of x and the output chosen for it, and the state after it; none where nothing may stand.
fn moved(file: &[u8], layout: Layout, here: Here, x: u8, output: Option<u8>) -> Option<Ticked>
    requires { Laid file.now layout × HereOf file.now layout here }
    ensures { (marks : List ℕ) (y : ℕ) → choice_said output ≡ output_choice (policy_of layout.reading file.now) marks (place layout.clocks here.state) x y → result ≡ tick_from (output_tick (policy_of layout.reading file.now) marks (place layout.clocks here.state) x y) }
{
    let y = output?;
    let state = here.state.step(file, layout, here, x, y)?;
    Some(Ticked { state, x, y })
}

// The output half with its move.
pub fn output_tick(
    file: &[u8],
    layout: Layout,
    here: Here,
    marks: &[u8],
    x: u8,
    y: u8,
) -> Option<Ticked>
    requires { Ready file.now layout here marks.now × (y < output_values (policy_of layout.reading file.now)) }
    ensures { result ≡ tick_from (output_tick (policy_of layout.reading file.now) marks.now (place layout.clocks here.state) x y) }
{
    let output = choose_output(file, layout, here, marks, x, y);
    moved(file, layout, here, x, output)
}

// Both halves, one after the other. The input as read stands if an event with it leads on, and mostly the one without any output does. Else one pass over
// the rules gives the outputs that may stand with each input: it serves both halves.
fn corrected(file: &[u8], layout: Layout, here: Here, marks: &[u8], x: u8, y: u8) -> Option<Ticked>
    requires { Ready file.now layout here marks.now × (x < input_values (policy_of layout.reading file.now)) × (y < output_values (policy_of layout.reading file.now)) }
    ensures { result ≡ tick_from (tick (policy_of layout.reading file.now) marks.now (place layout.clocks here.state) (event_xy x y)) }
{
    if reaches(file, layout, here, marks, x, 0) {
        return output_tick(file, layout, here, marks, x, y);
    }
    let sets = allowed(file, layout, here, marks);
    let z = nearest(standing(sets), x, inputs_of(file, layout))?;
    let output = nearest(sets[z as usize], y, outputs_of(file, layout));
    moved(file, layout, here, z, output)
}

// Both halves at once where the event may stand as it was read.
pub fn tick(
    file: &[u8],
    layout: Layout,
    own: Own,
    marks: &[u8],
    state: State,
    x: u8,
    y: u8,
) -> Option<Ticked>
    requires { Standing file.now layout marks.now state × (own ≡ own_of layout.clocks state.location (rules_of file.now)) × (x < input_values (policy_of layout.reading file.now)) × (y < output_values (policy_of layout.reading file.now)) }
    ensures { result ≡ tick_from (tick (policy_of layout.reading file.now) marks.now (place layout.clocks state) (event_xy x y)) }
{
    let here = here_by(file, layout, own, state);
    if let Some(next) = arrival(file, layout, here, marks, x, y) {
        return Some(Ticked { state: next, x, y });
    }
    corrected(file, layout, here, marks, x, y)
}
