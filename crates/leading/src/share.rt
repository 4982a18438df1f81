// What a rule takes of what the rules before it left, and where it leads with that.
ghost use Rattle.std.specs.Prelude.{◌≡◌, false, ◌≤◌, length, is_some, unwrap_or};
ghost use Rattle.policy.specs.Rules.{stopped, looked};
ghost use Rattle.policy.specs.File.{policy_of, rule_from};
ghost use Rattle.policy.specs.Sound.{Inside};
ghost use Rattle.stepping.specs.State.{place};
ghost use Rattle.stepping.specs.Ready.{Laid, HereOf, Ready};
ghost use Rattle.stepping.specs.Ways.{takes};
ghost use Rattle.stepping.specs.Pass.{Parted, Took, RuleTurned, Went, Gathers};
ghost use Rattle.stepping.specs.RuleAhead.{RuleAt};
ghost use Rattle.leading.specs.Shared.{share_said};

use crate::lead::{held, kept, leads, next_of};
use choice::{gather, is_left, outs, take};
use policy::Layout;
use policy::bytes::byte_within;
use stepping::Here;

// What a rule takes of what is left: with the inputs that agree with the care bits and the value, the outputs in the set.
#[derive(Clone, Copy)]
pub struct Share {
    pub care: usize,
    pub value: usize,
    pub set: u16,
}

// What the rule at `at` takes, if that is something. A rule whose bounds do not hold is left before any set is looked at.
pub fn part_of(
    file: &[u8],
    layout: Layout,
    here: Here,
    inputs: usize,
    left: &[u16; 16],
    at: usize,
) -> Option<Share>
    requires { Laid file.now layout × HereOf file.now layout here × RuleAt file.now layout here.state.location at × (inputs ≤ 16) }
    ensures { Parted (looked stopped (policy_of layout.reading file.now) (place layout.clocks here.state)) (rule_from layout.clocks file.now at) inputs left.now (is_some result) (share_said result).care (share_said result).value (share_said result).set }
{
    if !held(file, layout, here, at) {
        return None;
    }
    let care = byte_within(file, at + 1);
    let value = byte_within(file, at + 2);
    let set = outs(byte_within(file, at + 3), byte_within(file, at + 4));
    if !is_left(left, inputs, care, value, set) {
        return None;
    }
    Some(Share { care, value, set })
}

// Takes what the rule at `at` takes, and says whether that is something: whether the rule decides an event that no rule before it does.
pub fn take_by(
    file: &[u8],
    layout: Layout,
    here: Here,
    inputs: usize,
    left: &mut [u16; 16],
    at: usize,
) -> bool
    requires { Laid file.now layout × HereOf file.now layout here × RuleAt file.now layout here.state.location at × (inputs ≤ 16) × (length left.old ≡ 16) }
    ensures { Took (looked stopped (policy_of layout.reading file.now) (place layout.clocks here.state)) (rule_from layout.clocks file.now at) inputs left.old left.new result }
{
    match part_of(file, layout, here, inputs, left, at) {
        None => false,
        Some(part) => {
            take(left, inputs, part.care, part.value, part.set);
            true
        }
    }
}

// Takes what the rule at `at` takes, and says where it leads if that is something.
pub fn way_by(
    file: &[u8],
    layout: Layout,
    here: Here,
    inputs: usize,
    left: &mut [u16; 16],
    at: usize,
) -> Option<usize>
    requires { Laid file.now layout × HereOf file.now layout here × Inside (policy_of layout.reading file.now) (place layout.clocks here.state) × RuleAt file.now layout here.state.location at × (inputs ≤ 16) × (length left.old ≡ 16) }
    ensures { RuleTurned (place layout.clocks here.state) (policy_of layout.reading file.now) (rule_from layout.clocks file.now at) inputs left.old left.new (is_some result) (unwrap_or result 0) }
{
    if !take_by(file, layout, here, inputs, left, at) {
        return None;
    }
    next_of(file, layout, here.state, at)
}

// Takes what the rule at `at` takes, and says whether that is something and the rule leads to a marked state. Prepare asks this of every rule of every state: it is written out, as `gather_by` is, so that the compiler lays it into the loop there and copies nothing for it.
pub(crate) fn go_by(
    file: &[u8],
    layout: Layout,
    here: Here,
    marks: &[u8],
    inputs: usize,
    left: &mut [u16; 16],
    at: usize,
) -> bool
    requires { Ready file.now layout here marks.now × RuleAt file.now layout here.state.location at × (inputs ≤ 16) × (length left.old ≡ 16) }
    ensures { Went (place layout.clocks here.state) (policy_of layout.reading file.now) marks.now (rule_from layout.clocks file.now at) inputs left.old left.new result }
{
    if !held(file, layout, here, at) {
        return false;
    }
    let care = byte_within(file, at + 1);
    let value = byte_within(file, at + 2);
    let set = outs(byte_within(file, at + 3), byte_within(file, at + 4));
    if !is_left(left, inputs, care, value, set) {
        return false;
    }
    take(left, inputs, care, value, set);
    leads(file, layout, marks, here.state, at)
}

// What the rule at `at` takes of what is left with x.
#[tactic(auto, using(std::proofs::lemmas::Bool::Decides::nat_tests), unfolding(stepping::specs::Ways::takes, policy::specs::File::rule_from))]
pub(crate) fn takes(file: &[u8], layout: Layout, here: Here, x: u8, left: u16, at: usize) -> u16
    requires { Laid file.now layout × HereOf file.now layout here × RuleAt file.now layout here.state.location at }
    ensures { result ≡ takes (looked stopped (policy_of layout.reading file.now) (place layout.clocks here.state)) (rule_from layout.clocks file.now at) x left }
{
    if x as usize & byte_within(file, at + 1) != byte_within(file, at + 2) {
        return 0;
    }
    if !held(file, layout, here, at) {
        return 0;
    }
    left & outs(byte_within(file, at + 3), byte_within(file, at + 4))
}

// Takes what the rule at `at` takes; it is found, if the rule leads to a marked state.
pub(crate) fn gather_by(
    file: &[u8],
    layout: Layout,
    here: Here,
    marks: &[u8],
    inputs: usize,
    left: &mut [u16; 16],
    found: &mut [u16; 16],
    at: usize,
)
    requires { Ready file.now layout here marks.now × RuleAt file.now layout here.state.location at × (inputs ≤ 16) × (length left.old ≡ 16) × (length found.old ≡ 16) }
    ensures { Gathers (place layout.clocks here.state) (policy_of layout.reading file.now) marks.now (rule_from layout.clocks file.now at) inputs left.old left.new found.old found.new }
{
    if held(file, layout, here, at) {
        let care = byte_within(file, at + 1);
        let value = byte_within(file, at + 2);
        let set = outs(byte_within(file, at + 3), byte_within(file, at + 4));
        let led = kept(file, layout, marks, here.state, set, at);
        gather(left, found, inputs, care, value, set, led);
    }
}
