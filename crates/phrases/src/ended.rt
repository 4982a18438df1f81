// A rule's end: whether it may end there, and its bounds against the ceilings.
ghost use Rattle.std.specs.Prelude.{◌≡◌, ℕ, ◌≤◌, ltb, take};
ghost use Rattle.streams.specs.Answer.{unless, ◌or_else◌};
ghost use Rattle.refusals.specs.Refused.{refusal_in};
ghost use Rattle.policy.specs.Check.{bound_good, bounds_good};
ghost use Rattle.wording.specs.Reader.{ends};
ghost use Rattle.conditions.specs.Steps.{part_of, bounds_of, begun_of};
ghost use Rattle.phrases.specs.Ended.{bound_of};

use conditions::steps::{Parsed, Part};
use refusals::Refusal;

// After its target, or after a clock that is reset.
fn ended(parsed: Parsed) -> bool
    ensures { (n : ℕ) → result ≡ ends (begun_of n parsed) (part_of parsed.part parsed.clock) }
{
    match parsed.part {
        Part::Gone => true,
        Part::Clears => 0 < parsed.reset,
        _ => false,
    }
}

fn bound_good(ceiling: u16, low: u16, high: u16) -> bool
    ensures { result ≡ bound_good ceiling (bound_of low high) }
{
    if high < low || ceiling < low {
        return false;
    }
    high < ceiling || high == 65535
}

fn bounds_good(ceilings: [u16; 4], low: [u16; 4], high: [u16; 4], clocks: usize) -> bool
    requires { clocks ≤ 4 }
    ensures { result ≡ bounds_good (take clocks ceilings) (bounds_of clocks low high) }
{
    for i in 0..clocks {
        if !bound_good(ceilings[i], low[i], high[i]) {
            return false;
        }
    }
    true
}

// Whether the rule is taken as the next after `rules`.
pub fn check_rule(
    parsed: Parsed,
    ceilings: [u16; 4],
    clocks: usize,
    rules: usize,
) -> Result<(), Refusal>
    requires { clocks ≤ 4 }
    ensures { refusal_in result ≡ (unless (ends (begun_of clocks parsed) (part_of parsed.part parsed.clock)) 30 or_else (unless (bounds_good (take clocks ceilings) (bounds_of clocks parsed.low parsed.high)) 7 or_else unless (ltb rules 256) 33)) }
{
    if !ended(parsed) {
        return Err(Refusal::BadForm);
    }
    if !bounds_good(ceilings, parsed.low, parsed.high, clocks) {
        return Err(Refusal::BadBounds);
    }
    if rules < 256 {
        Ok(())
    } else {
        Err(Refusal::NoPlace)
    }
}
