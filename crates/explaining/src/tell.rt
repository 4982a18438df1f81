// The reason for one event, and for an input.
ghost use Rattle.std.specs.Prelude.{◌≡◌, false, ℕ, ◌+◌, ◌<◌, get_or};
ghost use Rattle.policy.specs.Rules.{stopped, looked, output_values};
ghost use Rattle.policy.specs.File.{policy_of, rules_from};
ghost use Rattle.policy.specs.Number.{states};
ghost use Rattle.policy.specs.Sound.{Inside};
ghost use Rattle.stepping.specs.Tick.{reaches};
ghost use Rattle.stepping.specs.Code.{event_xy, decider, found_said};
ghost use Rattle.stepping.specs.State.{place};
ghost use Rattle.stepping.specs.Ready.{Laid, HereOf};
ghost use Rattle.trimming.specs.Table.{machine_of, marks_of};
ghost use Rattle.counting.specs.Counted.{CountsOf};
ghost use Rattle.explaining.specs.Said.{ToldWhy, ToldIn, SaidCount};
ghost use Rattle.explaining.specs.CodeReasons.{reason_said};

use crate::reason::{Reason, better};
use counting::ENDLESS;
use leading::{next_of, values};
use policy::{Layout, may_rest};
use stepping::{Here, State, first_rule};

// The rule that decides the event x, y, by its number among the location's own.
fn decided(file: &[u8], layout: Layout, here: Here, x: u8, y: u8) -> Option<usize>
    requires { Laid file.now layout × HereOf file.now layout here }
    ensures { found_said result ≡ decider (rules_from layout.clocks file.now (layout.rules_start + here.own.start) here.own.count) (looked stopped (policy_of layout.reading file.now) (place layout.clocks here.state)) (event_xy x y) }
{
    let clocks = layout.clocks;
    let seen = here.seen;
    let from = layout.rules_start + here.own.start;
    let to = from + here.own.count * (7 + 4 * clocks);
    first_rule(&file[from..to], here.own.count, clocks, seen, x, y)
}

// What the tables say of the state with the number, which is not live.
fn left_at(file: &[u8], layout: Layout, ticks: &[u32], rests: &[u32], number: usize) -> Reason
    requires { Laid file.now layout × CountsOf (policy_of layout.reading file.now) ticks.now rests.now × (number < states (policy_of layout.reading file.now)) × (get_or (marks_of (policy_of layout.reading file.now)) number 0 ≡ 0) }
    ensures { SaidCount (machine_of (policy_of layout.reading file.now)) number (reason_said result) }
{
    let k = ticks[number];
    if k < ENDLESS {
        return Reason::Ticks((k - 1) as usize);
    }
    let ceilings = layout.ceilings;
    let state = State::numbered(number, ceilings);
    let all = rests[number];
    if may_rest(file, layout, state.location as usize) {
        Reason::Rests((all - 1) as usize)
    } else {
        Reason::Rests(all as usize)
    }
}

// Why the event x, y, which reaches no live state, would have been edited.
pub(crate) fn reason_of(
    file: &[u8],
    layout: Layout,
    here: Here,
    ticks: &[u32],
    rests: &[u32],
    x: u8,
    y: u8,
) -> Reason
    requires laid { Laid file.now layout × HereOf file.now layout here × Inside (policy_of layout.reading file.now) (place layout.clocks here.state) }
    requires counts_of { CountsOf (policy_of layout.reading file.now) ticks.now rests.now × (reaches (policy_of layout.reading file.now) (marks_of (policy_of layout.reading file.now)) (place layout.clocks here.state) x y ≡ false) }
    ensures { ToldWhy (policy_of layout.reading file.now) (place layout.clocks here.state) (event_xy x y) (reason_said result) }
{
    let Some(i) = decided(file, layout, here, x, y) else {
        return Reason::Unmatched;
    };
    let size = 7 + 4 * layout.clocks;
    let at = layout.rules_start + here.own.start + i * size;
    let Some(number) = next_of(file, layout, here.state, at) else {
        return Reason::Rule(here.own.start / size + i);
    };
    left_at(file, layout, ticks, rests, number)
}

// Why the input x, with which no output reaches a live state, was edited.
pub(crate) fn reason_for_input(
    file: &[u8],
    layout: Layout,
    here: Here,
    ticks: &[u32],
    rests: &[u32],
    x: u8,
) -> Reason
    requires laid { Laid file.now layout × HereOf file.now layout here × Inside (policy_of layout.reading file.now) (place layout.clocks here.state) }
    requires counts_of { CountsOf (policy_of layout.reading file.now) ticks.now rests.now × ((y : ℕ) → y < output_values (policy_of layout.reading file.now) → reaches (policy_of layout.reading file.now) (marks_of (policy_of layout.reading file.now)) (place layout.clocks here.state) x y ≡ false) }
    ensures { ToldIn (policy_of layout.reading file.now) (place layout.clocks here.state) (output_values (policy_of layout.reading file.now)) x (reason_said result) }
{
    let outputs = values(layout.outputs);
    let mut best = reason_of(file, layout, here, ticks, rests, x, 0);
    for y in 1..outputs as u8 {
        let one = reason_of(file, layout, here, ticks, rests, x, y);
        best = better(best, one);
    }
    best
}
