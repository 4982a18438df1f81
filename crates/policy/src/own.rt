// A location's own rules. Sources never fall from one rule to the next, so they stand together.
ghost use Rattle.std.specs.Prelude.{◌≡◌, ◌+◌, ◌*◌, ◌≤◌, ◌<◌, ◌^◌, length};
ghost use Rattle.policy.specs.File.{rule_size, rules_from};
ghost use Rattle.policy.specs.Own.{below, own_of};

use crate::bytes::byte_within;
use crate::limits::{BOUND_SIZE, RULE_HEAD};

// Where a location's own rules start in the rule section, and how many they are.
#[derive(Clone, Copy)]
pub struct Own {
    pub start: usize,
    pub count: usize,
}

// How many of the rules from `at` on have a source below the location, before one that has not.
pub fn rules_below(rules: &[u8], at: usize, count: usize, clocks: usize, location: usize) -> usize
    requires { (at < 2 ^ 16) × (count ≤ 256) × (clocks ≤ 4) × (at + count * rule_size clocks ≤ length rules.now) }
    ensures { result ≡ below location (rules_from clocks rules.now at count) }
{
    let size = RULE_HEAD + BOUND_SIZE * clocks;
    for i in 0..count {
        if location <= byte_within(rules, at + i * size) {
            return i;
        }
    }
    count
}

pub fn own_rules(rules: &[u8], count: usize, clocks: usize, location: usize) -> Own
    requires { (count ≤ 256) × (clocks ≤ 4) × (location < 2 ^ 16) × (count * rule_size clocks ≤ length rules.now) }
    ensures { result ≡ own_of clocks location (rules_from clocks rules.now 0 count) }
{
    let first = rules_below(rules, 0, count, clocks, location);
    let start = first * (RULE_HEAD + BOUND_SIZE * clocks);
    Own {
        start,
        count: rules_below(rules, start, count - first, clocks, location + 1),
    }
}
