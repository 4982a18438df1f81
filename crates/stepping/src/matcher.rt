// The rule matcher. `first_rule` is handed the part of the file that a location's rules are; the bounds of one rule are read where it stands, in that part or in the file.
ghost use Rattle.std.specs.Prelude.{◌≡◌, ◌+◌, ◌*◌, ◌≤◌, ◌<◌, ◌^◌, length, take};
ghost use Rattle.policy.specs.Rules.{hold, fires, within};
ghost use Rattle.policy.specs.File.{byte_at, rule_size, bounds_from, rule_from, rules_from};
ghost use Rattle.policy.specs.Sound.{Each};
ghost use Rattle.stepping.specs.Code.{event_xy, decider, found_said};
ghost use Rattle.stepping.specs.State.{place};

use crate::state::State;
use policy::bytes::{byte_within, pair_within};
use policy::limits::{BOUND_SIZE, RULE_HEAD};

// No value is above 65,535, so that as a high it needs no test of its own.
#[tactic(auto, using(std::proofs::lemmas::Bool::Decides::nat_tests), unfolding(policy::specs::Rules::within))]
fn is_within(low: usize, high: usize, value: u16) -> bool
    ensures { result ≡ within (record { low = low; high = high }) value }
{
    let value = value as usize;
    low <= value && value <= high
}

// The bounds from `at` on hold for the clock values. The turns are counted by a constant, so that the compiler writes them out.
pub fn bounds_hold(rules: &[u8], at: usize, clocks: usize, values: [u16; State::CLOCKS]) -> bool
    requires { (at < 2 ^ 32) × (clocks ≤ 4) × (at + 4 * clocks ≤ length rules.now) }
    ensures { result ≡ hold (bounds_from rules.now at clocks) (take clocks values) }
{
    for (i, &value) in values.iter().enumerate() {
        if clocks <= i {
            return true;
        }
        let low = pair_within(rules, at + BOUND_SIZE * i);
        let high = pair_within(rules, at + BOUND_SIZE * i + 2);
        if !is_within(low, high, value) {
            return false;
        }
    }
    true
}

// The care bits of the location's rule at `at` agree with x and y, and its bounds hold.
#[tactic(auto, using(std::proofs::lemmas::Bool::Decides::nat_tests), unfolding(policy::specs::Rules::fires, policy::specs::File::rule_from))]
fn rule_fires(rules: &[u8], at: usize, clocks: usize, state: State, x: u8, y: u8) -> bool
    requires { (at < 2 ^ 31) × (clocks ≤ 4) × (at + rule_size clocks ≤ length rules.now) × (byte_at rules.now at ≡ state.location) }
    ensures { result ≡ fires (rule_from clocks rules.now at) (place clocks state) (event_xy x y) }
{
    x as usize & byte_within(rules, at + 1) == byte_within(rules, at + 2)
        && y as usize & byte_within(rules, at + 3) == byte_within(rules, at + 4)
        && bounds_hold(rules, at + RULE_HEAD, clocks, state.clocks)
}

// The number of the first that fires of the rules, all of which are the location's. The first of them has the number 0.
pub fn first_rule(
    rules: &[u8],
    count: usize,
    clocks: usize,
    state: State,
    x: u8,
    y: u8,
) -> Option<usize>
    requires count_bound { (count ≤ 256) × (clocks ≤ 4) × (count * rule_size clocks ≤ length rules.now) }
    requires each { Each (λ r. r.source ≡ state.location) (rules_from clocks rules.now 0 count) }
    ensures { found_said result ≡ decider (rules_from clocks rules.now 0 count) (place clocks state) (event_xy x y) }
{
    let size = RULE_HEAD + BOUND_SIZE * clocks;
    let mut at = 0;
    for number in 0..count {
        if rule_fires(rules, at, clocks, state, x, y) {
            return Some(number);
        }
        at += size;
    }
    None
}
