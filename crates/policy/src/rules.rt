// The rules of a file, over the part of the file that they are.
ghost use Rattle.std.specs.Prelude.{◌≡◌, ◌+◌, ◌*◌, ◌≤◌, ◌<◌, ◌^◌, length, take, IfOk};
ghost use Rattle.policy.specs.File.{rule_size, rule_from, rules_from, bounds_from, rules_at, rule_count};
ghost use Rattle.policy.specs.Check.{mask_good, head_good, bound_good, bounds_good, rule_refusal, rules_refusal, rules_section_refusal};
ghost use Rattle.policy.specs.LayoutLaws.{Shaped, ShapeOf};
ghost use Rattle.refusals.specs.Refused.{refusal_in};

use crate::bytes::{pair_at, pair_within};
use crate::limits::{BOUND_SIZE, CLOCKS, NO_UPPER_BOUND, RULE_HEAD, RULES, VIOLATION};
use crate::sections::check_section;
use refusals::Refusal;

// How much the sections before the rules hold.
#[derive(Clone, Copy)]
pub struct Shape {
    pub inputs: usize,
    pub outputs: usize,
    pub clocks: usize,
    pub locations: usize,
    pub ceilings: [u16; CLOCKS],
}

// No care bit is beyond the signals, and no value bit outside the care bits.
fn mask_good(signals: usize, care: u8, value: u8) -> bool
    requires { signals ≤ 4 }
    ensures { result ≡ mask_good signals care value }
{
    usize::from(care) < 1 << signals && value & care == value
}

// The first seven bytes of a rule keep the rules; `before` is the source of the rule before it.
fn head_good(rule: &[u8], shape: Shape, before: usize) -> bool
    requires { Shaped shape × (7 ≤ length rule.now) }
    ensures { result ≡ head_good shape.inputs shape.outputs shape.clocks shape.locations before (rule_from shape.clocks rule.now 0) }
{
    let source = usize::from(rule[0]);
    let target = usize::from(rule[6]);
    before <= source
        && source < shape.locations
        && mask_good(shape.inputs, rule[1], rule[2])
        && mask_good(shape.outputs, rule[3], rule[4])
        && usize::from(rule[5]) < 1 << shape.clocks
        && (target < shape.locations || target == VIOLATION)
}

// Low is at most high and at most the ceiling, and high is below the ceiling or no bound.
fn bound_good(ceiling: u16, low: u16, high: u16) -> bool
    ensures { result ≡ bound_good ceiling (record { low = low; high = high }) }
{
    low <= high && low <= ceiling && (high < ceiling || high == NO_UPPER_BOUND)
}

// The bounds keep the rules, one for each ceiling.
fn bounds_good(bounds: &[u8], ceilings: &[u16]) -> bool
    requires { (length ceilings.now ≤ 4) × (length bounds.now ≡ 4 * length ceilings.now) }
    ensures { result ≡ bounds_good ceilings.now (bounds_from bounds.now 0 (length ceilings.now)) }
{
    for (i, &ceiling) in ceilings.iter().enumerate() {
        let low = pair_within(bounds, BOUND_SIZE * i) as u16;
        let high = pair_within(bounds, BOUND_SIZE * i + 2) as u16;
        if !bound_good(ceiling, low, high) {
            return false;
        }
    }
    true
}

// Refused where the rule breaks the rules: its head comes before its bounds. The shape is lent, so that it is not laid out anew for each rule.
fn check_rule(rule: &[u8], shape: &Shape, before: usize) -> Result<(), Refusal>
    requires shaped { Shaped shape.now }
    requires whole { length rule.now ≡ rule_size shape.now.clocks }
    ensures { refusal_in result ≡ rule_refusal shape.now.inputs shape.now.outputs (take shape.now.clocks shape.now.ceilings) shape.now.locations before (rule_from shape.now.clocks rule.now 0) }
{
    if !head_good(rule, *shape, before) {
        return Err(Refusal::BadHead);
    }
    if !bounds_good(&rule[RULE_HEAD..], &shape.ceilings[..shape.clocks]) {
        return Err(Refusal::BadBounds);
    }
    Ok(())
}

// The refusal of the first of the n rules that breaks the rules.
fn check_each_rule(section: &[u8], n: usize, shape: Shape) -> Result<(), Refusal>
    requires n_bound { (n ≤ 256) × Shaped shape }
    requires clocks_in_bounds { n * rule_size shape.clocks ≤ length section.now }
    ensures { refusal_in result ≡ rules_refusal shape.inputs shape.outputs (take shape.clocks shape.ceilings) shape.locations 0 (rules_from shape.clocks section.now 0 n) }
{
    let size = RULE_HEAD + BOUND_SIZE * shape.clocks;
    let mut before = 0;
    for i in 0..n {
        let rule = &section[i * size..(i + 1) * size];
        check_rule(rule, &shape, before)?;
        before = usize::from(rule[0]);
    }
    Ok(())
}

// How many rules there are, if their section is good.
pub(crate) fn check_rules(file: &[u8], at: usize, shape: Shape) -> Result<usize, Refusal>
    requires { (at < 2 ^ 10) × (at ≡ rules_at file.now) × ShapeOf file.now shape }
    ensures refuses { refusal_in result ≡ rules_section_refusal file.now }
    ensures counts { IfOk result (λ n. n ≡ rule_count file.now) }
{
    let n = pair_at(file, at);
    let size = RULE_HEAD + BOUND_SIZE * shape.clocks;
    check_section(file, at, 2, n, 0, RULES, size)?;
    check_each_rule(&file[at + 2..at + 2 + n * size], n, shape)?;
    Ok(n)
}
