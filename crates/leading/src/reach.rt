// Which events take a state to a marked one.
ghost use Rattle.std.specs.Prelude.{◌≡◌, ◌≤◌, ◌^◌};
ghost use Rattle.std.proofs.Math.Option.{bind};
ghost use Rattle.policy.specs.Rules.{stopped, taken};
ghost use Rattle.policy.specs.File.{policy_of};
ghost use Rattle.stepping.specs.Tick.{arrives, reaches};
ghost use Rattle.stepping.specs.State.{place};
ghost use Rattle.stepping.specs.Ready.{Standing, Ready};
ghost use Rattle.stepping.specs.Decided.{rule_said, Stands};

use crate::lead::leads;
use policy::Layout;
use stepping::{Here, State, rule_of};

// How many values so many signals have, one bit a signal.
pub fn values(signals: usize) -> usize
    requires { signals ≤ 4 }
    ensures { result ≡ 2 ^ signals }
{
    1 << signals
}

// The rule that decides leads to a marked state. No such rule leads nowhere.
fn leads_by(file: &[u8], layout: Layout, marks: &[u8], state: State, rule: Option<usize>) -> bool
    requires { Standing file.now layout marks.now state × Stands file.now layout state.location rule }
    ensures { result ≡ arrives (policy_of layout.reading file.now) marks.now (bind (rule_said layout.clocks file.now rule) (taken stopped (policy_of layout.reading file.now) (place layout.clocks state))) }
{
    match rule {
        None => false,
        Some(at) => leads(file, layout, marks, state, at),
    }
}

// The event x, y takes the state to a marked one.
#[tactic(auto, using(stepping::proofs::DecidedLaws::decided_reaches))]
pub fn reaches(file: &[u8], layout: Layout, here: Here, marks: &[u8], x: u8, y: u8) -> bool
    requires { Ready file.now layout here marks.now }
    ensures { result ≡ reaches (policy_of layout.reading file.now) marks.now (place layout.clocks here.state) x y }
{
    let rule = rule_of(file, layout, here, x, y);
    leads_by(file, layout, marks, here.state, rule)
}

// The event 0, 0 takes the state to a marked one. Only prepare asks this, so that the compiler lays it into the loop over the states.
#[tactic(auto, using(stepping::proofs::DecidedLaws::decided_reaches))]
pub(crate) fn idles(file: &[u8], layout: Layout, here: Here, marks: &[u8]) -> bool
    requires { Ready file.now layout here marks.now }
    ensures { result ≡ reaches (policy_of layout.reading file.now) marks.now (place layout.clocks here.state) 0 0 }
{
    let rule = rule_of(file, layout, here, 0, 0);
    leads_by(file, layout, marks, here.state, rule)
}

// The event x, 0 takes the state to a marked one. Only the input half asks this, so that the compiler lays it into the half.
#[tactic(auto, using(stepping::proofs::DecidedLaws::decided_reaches))]
pub fn input_reaches(file: &[u8], layout: Layout, here: Here, marks: &[u8], x: u8) -> bool
    requires { Ready file.now layout here marks.now }
    ensures { result ≡ reaches (policy_of layout.reading file.now) marks.now (place layout.clocks here.state) x 0 }
{
    let rule = rule_of(file, layout, here, x, 0);
    leads_by(file, layout, marks, here.state, rule)
}
