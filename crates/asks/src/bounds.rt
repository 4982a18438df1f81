// The clocks that a rule bounds.
ghost use Rattle.std.specs.Prelude.{◌+◌, ◌*◌, ◌≤◌, length};
ghost use Rattle.policy.specs.File.{bounds_from};
ghost use Rattle.texts.specs.Wrote.{Wrote};
ghost use Rattle.asks.specs.Words.{clock, bound, bounds};

use policy::bytes::pair_within;
use policy::limits::NO_UPPER_BOUND;
use texts::{put_about, put_bytes, put_decimal};

fn put_clock(text: &mut [u8], at: usize, number: usize, low: usize) -> usize
    requires { at + length (clock number low) ≤ length text.old }
    ensures { Wrote text.old at (clock number low) result text.new }
{
    let next = put_about(text, at, b", clock ", number, b" from ");
    put_decimal(text, next, low)
}

fn put_bound(text: &mut [u8], at: usize, number: usize, low: usize, high: usize) -> usize
    requires { at + length (bound number low high) ≤ length text.old }
    ensures { Wrote text.old at (bound number low high) result text.new }
{
    if high != NO_UPPER_BOUND as usize {
        let next = put_clock(text, at, number, low);
        let to = put_bytes(text, next, b" to ");
        return put_decimal(text, to, high);
    }
    if low == 0 {
        return at;
    }
    let next = put_clock(text, at, number, low);
    put_bytes(text, next, b" on")
}

// The bounds stand after the seven bytes of the rule.
pub(crate) fn put_bounds(text: &mut [u8], at: usize, rule: &[u8], clocks: usize) -> usize
    requires { (clocks ≤ 4) × (7 + 4 * clocks ≤ length rule.now) × (at + length (bounds 0 (bounds_from rule.now 7 clocks)) ≤ length text.old) }
    ensures { Wrote text.old at (bounds 0 (bounds_from rule.now 7 clocks)) result text.new }
{
    let mut next = at;
    for clock in 0..clocks {
        let low = pair_within(rule, 7 + 4 * clock);
        let high = pair_within(rule, 9 + 4 * clock);
        next = put_bound(text, next, clock, low, high);
    }
    next
}
