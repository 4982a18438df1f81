// The state that an event leads to, if it is a marked one.
ghost use Rattle.std.specs.Prelude.{◌≡◌, ◌<◌, length};
ghost use Rattle.std.specs.Option.{IfSome};
ghost use Rattle.policy.specs.File.{policy_of};
ghost use Rattle.stepping.specs.Code.{step_from};
ghost use Rattle.stepping.specs.State.{place};
ghost use Rattle.correcting.specs.Arrived.{four_number, if_marked, arrival};
ghost use Rattle.stepping.specs.Ready.{Ready};

use policy::Layout;
use stepping::{Here, State, rule_of};

// A next state that is not marked counts as none.
fn if_marked(layout: Layout, marks: &[u8], next: Option<State>) -> Option<State>
    requires { IfSome next (λ s. (four_number layout s < 65536) × (four_number layout s < length marks.now)) }
    ensures { result ≡ if_marked layout marks.now next }
{
    let next = next?;
    let ceilings = layout.ceilings;
    let number = next.number(ceilings, State::CLOCKS);
    if marks[number] == 1 { Some(next) } else { None }
}

// The marked state that the event x, y leads to. Only a run asks this, so that the compiler lays it into the run's loop.
pub(crate) fn arrival(
    file: &[u8],
    layout: Layout,
    here: Here,
    marks: &[u8],
    x: u8,
    y: u8,
) -> Option<State>
    requires { Ready file.now layout here marks.now }
    ensures { result ≡ step_from (arrival (policy_of layout.reading file.now) marks.now (place layout.clocks here.state) x y) }
{
    let rule = rule_of(file, layout, here, x, y);
    let next = here.state.by(file, layout, rule);
    if_marked(layout, marks, next)
}

// The marked state that the event x, y leads to, as `arrival` has it: a twin of it, so that the compiler lays this one into the output half, which alone asks it.
pub fn output_arrival(
    file: &[u8],
    layout: Layout,
    here: Here,
    marks: &[u8],
    x: u8,
    y: u8,
) -> Option<State>
    requires { Ready file.now layout here marks.now }
    ensures { result ≡ step_from (arrival (policy_of layout.reading file.now) marks.now (place layout.clocks here.state) x y) }
{
    let rule = rule_of(file, layout, here, x, y);
    let next = here.state.by(file, layout, rule);
    if_marked(layout, marks, next)
}
