// What is worked out once for a state, and one step of it.
ghost use Rattle.std.specs.Prelude.{◌≡◌};
ghost use Rattle.policy.specs.Rules.{stopped, step};
ghost use Rattle.policy.specs.File.{policy_of, rules_of};
ghost use Rattle.policy.specs.Own.{own_of};
ghost use Rattle.stepping.specs.Code.{event_xy, seen_by, step_from};
ghost use Rattle.stepping.specs.State.{place};
ghost use Rattle.stepping.specs.Ready.{Laid, HereOf};
ghost use Rattle.stepping.specs.Decided.{Decided};

use crate::matcher::first_rule;
use crate::next::advanced;
use crate::state::State;
use policy::limits::{BOUND_SIZE, RULE_HEAD};
use policy::{Layout, Own, own_rules};

// A state, and what is worked out for it once: the rules of its location, and the state that their bounds see.
#[derive(Clone, Copy)]
pub struct Here {
    pub own: Own,
    pub seen: State,
    pub state: State,
}

// The rules of the state's location.
pub fn own_of(file: &[u8], layout: Layout, state: State) -> Own
    requires { Laid file.now layout }
    ensures { result ≡ own_of layout.clocks state.location (rules_of file.now) }
{
    let start = layout.rules_start;
    let end = layout.rules_end;
    own_rules(
        &file[start..end],
        layout.rules,
        layout.clocks,
        state.location as usize,
    )
}

// The state that bounds see: under reading 2 each clock has gone on by one.
#[tactic(auto, using(std::proofs::lemmas::Bool::Decides::nat_tests))]
fn seen_of(layout: Layout, state: State) -> State
    ensures { result ≡ seen_by layout state }
{
    if layout.reading != 2 {
        return state;
    }
    let ceilings = layout.ceilings;
    let values = state.clocks;
    State {
        location: state.location,
        clocks: advanced(0, ceilings, values),
    }
}

// What is worked out for a state whose location's rules are known.
pub fn here_by(file: &[u8], layout: Layout, own: Own, state: State) -> Here
    requires { Laid file.now layout × (own ≡ own_of layout.clocks state.location (rules_of file.now)) }
    ensures { HereOf file.now layout result × (result.state ≡ state) }
{
    Here {
        own,
        seen: seen_of(layout, state),
        state,
    }
}

// Where the rule that decides the event x, y stands in the file: the first of the location's own that fires.
pub fn rule_of(file: &[u8], layout: Layout, here: Here, x: u8, y: u8) -> Option<usize>
    requires { Laid file.now layout × HereOf file.now layout here }
    ensures { Decided file.now layout here.state (event_xy x y) result }
{
    let clocks = layout.clocks;
    let count = here.own.count;
    let size = RULE_HEAD + BOUND_SIZE * clocks;
    let from = layout.rules_start + here.own.start;
    let to = from + count * size;
    let number = first_rule(&file[from..to], count, clocks, here.seen, x, y)?;
    Some(from + number * size)
}

impl State {
    // The state after the event x, y. A violation has none.
    pub fn step(self, file: &[u8], layout: Layout, here: Here, x: u8, y: u8) -> Option<State>
        requires { Laid file.now layout × HereOf file.now layout here × (here.state ≡ self) }
        ensures { result ≡ step_from (step stopped (policy_of layout.reading file.now) (place layout.clocks self) (event_xy x y)) }
    {
        let rule = rule_of(file, layout, here, x, y);
        self.by(file, layout, rule)
    }
}
