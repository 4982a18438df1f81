// All that a rule asks.
ghost use Rattle.std.specs.Prelude.{◌+◌, ◌*◌, ◌≤◌, length};
ghost use Rattle.policy.specs.File.{byte_at, rule_from};
ghost use Rattle.texts.specs.Wrote.{Wrote};
ghost use Rattle.asks.specs.Words.{location, asks};

use crate::bounds::put_bounds;
use crate::signals::put_cared;
use policy::bytes::byte_within;
use texts::{put_bytes, put_decimal};

fn put_location(text: &mut [u8], at: usize, number: usize) -> usize
    requires { at + length (location number) ≤ length text.old }
    ensures { Wrote text.old at (location number) result text.new }
{
    let next = put_bytes(text, at, b"at location ");
    put_decimal(text, next, number)
}

// The rule is given by its bytes, and the signals by their tags.
pub fn put_asks(
    text: &mut [u8],
    at: usize,
    inputs: &[u8],
    outputs: &[u8],
    rule: &[u8],
    clocks: usize,
) -> usize
    requires clocks_bound { (clocks ≤ 4) × (7 + 4 * clocks ≤ length rule.now) × (byte_at rule.now 2 ≤ byte_at rule.now 1) × (byte_at rule.now 4 ≤ byte_at rule.now 3) }
    requires rule_in_bounds { at + length (asks inputs.now outputs.now (rule_from clocks rule.now 0)) ≤ length text.old }
    ensures { Wrote text.old at (asks inputs.now outputs.now (rule_from clocks rule.now 0)) result text.new }
{
    let next = put_location(text, at, byte_within(rule, 0));
    let more = put_cared(text, next, inputs, outputs, rule);
    put_bounds(text, more, rule, clocks)
}
