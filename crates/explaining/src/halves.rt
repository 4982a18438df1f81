// The reasons for both halves, where the marks are those of prepare.
ghost use Rattle.std.specs.Prelude.{◌≡◌, true, false, ℕ, ◌<◌};
ghost use Rattle.policy.specs.Rules.{input_values, output_values};
ghost use Rattle.policy.specs.File.{policy_of, rules_of};
ghost use Rattle.policy.specs.Number.{number_of};
ghost use Rattle.policy.specs.Own.{own_of};
ghost use Rattle.policy.specs.Sound.{Inside};
ghost use Rattle.stepping.specs.State.{is_marked, place};
ghost use Rattle.stepping.specs.Tick.{reaches};
ghost use Rattle.stepping.specs.Ready.{Laid, HereOf, Standing};
ghost use Rattle.trimming.specs.Table.{marks_of};
ghost use Rattle.prepare.specs.Enforcing.{AsPrepared};
ghost use Rattle.counting.specs.Counted.{CountsOf};
ghost use Rattle.explaining.specs.Halves.{GivenIn, GivenOut, BothTold, Moves};
ghost use Rattle.explaining.specs.CodeReasons.{reason_said, both_said};

use crate::reason::{Reason, Reasons};
use crate::tell::{reason_for_input, reason_of};
use enforcer::{input_by, output_by};
use policy::{Layout, Own};
use stepping::{Here, State, here_by, own_of};

// The reasons for a tick, the halves that it releases, and the state after it.
#[derive(Clone, Copy)]
pub struct Told {
    pub reasons: Reasons,
    pub x: u8,
    pub y: u8,
    pub state: State,
}

// For the input x, of which `passed` was passed on.
fn for_input(
    file: &[u8],
    layout: Layout,
    here: Here,
    ticks: &[u32],
    rests: &[u32],
    x: u8,
    passed: u8,
) -> Reason
    requires laid { Laid file.now layout × HereOf file.now layout here × Inside (policy_of layout.reading file.now) (place layout.clocks here.state) }
    requires counts_of { CountsOf (policy_of layout.reading file.now) ticks.now rests.now × ((x ≡ passed → ⊥) → (y : ℕ) → y < output_values (policy_of layout.reading file.now) → reaches (policy_of layout.reading file.now) (marks_of (policy_of layout.reading file.now)) (place layout.clocks here.state) x y ≡ false) }
    ensures { GivenIn (policy_of layout.reading file.now) (place layout.clocks here.state) x passed (reason_said result) }
{
    if x == passed {
        Reason::Kept
    } else {
        reason_for_input(file, layout, here, ticks, rests, x)
    }
}

// For the output y, of which `released` was released, with the input x as passed on.
fn for_output(
    file: &[u8],
    layout: Layout,
    here: Here,
    ticks: &[u32],
    rests: &[u32],
    x: u8,
    y: u8,
    released: u8,
) -> Reason
    requires laid { Laid file.now layout × HereOf file.now layout here × Inside (policy_of layout.reading file.now) (place layout.clocks here.state) }
    requires counts_of { CountsOf (policy_of layout.reading file.now) ticks.now rests.now × ((y ≡ released → ⊥) → reaches (policy_of layout.reading file.now) (marks_of (policy_of layout.reading file.now)) (place layout.clocks here.state) x y ≡ false) }
    ensures { GivenOut (policy_of layout.reading file.now) (place layout.clocks here.state) x y released (reason_said result) }
{
    if y == released {
        Reason::Kept
    } else {
        reason_of(file, layout, here, ticks, rests, x, y)
    }
}

// By the rules of the state's location. The output is judged with the input that is passed on.
pub fn tell(
    file: &[u8],
    layout: Layout,
    own: Own,
    marks: &[u8],
    ticks: &[u32],
    rests: &[u32],
    state: State,
    x: u8,
    y: u8,
) -> Told
    requires standing { Standing file.now layout marks.now state × AsPrepared (policy_of layout.reading file.now) marks.now × (is_marked marks.now (number_of (policy_of layout.reading file.now) (place layout.clocks state)) ≡ true) }
    requires counts_of { CountsOf (policy_of layout.reading file.now) ticks.now rests.now × (x < input_values (policy_of layout.reading file.now)) × (y < output_values (policy_of layout.reading file.now)) × (own ≡ own_of layout.clocks state.location (rules_of file.now)) }
    ensures { BothTold (policy_of layout.reading file.now) marks.now (place layout.clocks state) x y (both_said result.reasons) × Moves (policy_of layout.reading file.now) marks.now (place layout.clocks state) x y result.x result.y result.state }
{
    let here = here_by(file, layout, own, state);
    let passed = input_by(file, layout, own, marks, state, x).unwrap_or(x);
    let output = output_by(file, layout, own, marks, state, passed, y);
    let (released, next) = output.unwrap_or((y, state));
    let reasons = Reasons {
        input: for_input(file, layout, here, ticks, rests, x, passed),
        output: for_output(file, layout, here, ticks, rests, passed, y, released),
    };
    Told {
        reasons,
        x: passed,
        y: released,
        state: next,
    }
}

pub fn reasons(
    file: &[u8],
    layout: Layout,
    marks: &[u8],
    ticks: &[u32],
    rests: &[u32],
    state: State,
    x: u8,
    y: u8,
) -> Reasons
    requires standing { Standing file.now layout marks.now state × AsPrepared (policy_of layout.reading file.now) marks.now × (is_marked marks.now (number_of (policy_of layout.reading file.now) (place layout.clocks state)) ≡ true) }
    requires counts_of { CountsOf (policy_of layout.reading file.now) ticks.now rests.now × (x < input_values (policy_of layout.reading file.now)) × (y < output_values (policy_of layout.reading file.now)) }
    ensures { BothTold (policy_of layout.reading file.now) marks.now (place layout.clocks state) x y (both_said result) }
{
    let own = own_of(file, layout, state);
    tell(file, layout, own, marks, ticks, rests, state, x, y).reasons
}
