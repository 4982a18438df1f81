// The cleaned policy, laid into a slice from its start on, as far as the slice reaches. Each function hands back the position after what it lays.
ghost use Rattle.std.specs.Prelude.{cond, [], ◌+◌, ◌≤◌, ◌<◌, ◌^◌, length};
ghost use Rattle.policy.specs.File.{rule_size, rule_from, rules_of};
ghost use Rattle.laying.specs.Lay.{LaidAt, bytes_from};
ghost use Rattle.usage.specs.Sift.{sift};
ghost use Rattle.usage.specs.Code.{flags_of, EndsAt, Flagged, cleaned_rule, cleaned_rules, cleaned_by};

use laying::lay::{copy, put, put_pair};
use policy::Layout;
use policy::bytes::byte_within;
use policy::limits::{BOUND_SIZE, RULE_HEAD};
use usage::{rank, renumber};

// The rule at p, with the new numbers of its locations.
fn lay_rule(
    file: &[u8],
    clocks: usize,
    entered: &[u8],
    p: usize,
    out: &mut [u8],
    at: usize,
) -> usize
    requires clocks_in_bounds { (p + rule_size clocks ≤ length file.now) × (clocks ≤ 4) × (p < 2 ^ 16) × (at < 2 ^ 16) }
    requires ends_at { EndsAt file.now p (length entered.now) × (length entered.now ≤ 64) }
    ensures { LaidAt (cleaned_rule (flags_of entered.now) (rule_from clocks file.now p)) out.old at out.new result }
{
    let source = rank(entered, byte_within(file, p));
    let target = renumber(entered, byte_within(file, p + 6));
    let cares = put(source, out, at);
    let targets = copy(file, p + 1, 5, out, cares);
    let bounds = put(target, out, targets);
    copy(file, p + RULE_HEAD, BOUND_SIZE * clocks, out, bounds)
}

// The rule at p, where it is kept.
fn lay_kept(
    file: &[u8],
    clocks: usize,
    entered: &[u8],
    kept: bool,
    p: usize,
    out: &mut [u8],
    at: usize,
) -> usize
    requires clocks_in_bounds { (p + rule_size clocks ≤ length file.now) × (clocks ≤ 4) × (p < 2 ^ 16) × (at < 2 ^ 16) }
    requires ends_at { EndsAt file.now p (length entered.now) × (length entered.now ≤ 64) }
    ensures { LaidAt (cond kept (cleaned_rule (flags_of entered.now) (rule_from clocks file.now p)) []) out.old at out.new result × (result ≤ at + 23) }
{
    if !kept {
        return at;
    }
    lay_rule(file, clocks, entered, p, out, at)
}

// The rules whose flags are set.
fn lay_rules(
    file: &[u8],
    layout: Layout,
    entered: &[u8],
    used: &[u8],
    out: &mut [u8],
    at: usize,
) -> usize
    requires { Flagged file.now layout entered.now used.now × (at < 2 ^ 12) }
    ensures { LaidAt (cleaned_rules (flags_of entered.now) (flags_of used.now) (rules_of file.now)) out.old at out.new result }
{
    let clocks = layout.clocks;
    let size = RULE_HEAD + BOUND_SIZE * clocks;
    let mut next = at;
    let mut p = layout.rules_start;
    for flag in used {
        next = lay_kept(file, clocks, entered, *flag == 1, p, out, next);
        p += size;
    }
    next
}

// The bytes from `start` on whose flags are set.
fn lay_left(file: &[u8], start: usize, entered: &[u8], out: &mut [u8], at: usize) -> usize
    requires { (start + length entered.now ≤ length file.now) × (length entered.now ≤ 64) × (start < 2 ^ 16) × (at < 2 ^ 16) }
    ensures laid_at { LaidAt (sift (flags_of entered.now) (bytes_from file.now start (length entered.now))) out.old at out.new result }
    ensures upper_bound { result ≤ at + 64 }
{
    let mut next = at;
    for (byte, flag) in file[start..start + entered.len()].iter().zip(entered) {
        if *flag == 1 {
            next = put(*byte as usize, out, next);
        }
    }
    next
}

// The counts, and the rules. What stands before the locations stays.
pub(crate) fn lay_policy(
    file: &[u8],
    layout: Layout,
    entered: &[u8],
    used: &[u8],
    out: &mut [u8],
) -> usize
    requires { Flagged file.now layout entered.now used.now }
    ensures { LaidAt (cleaned_by file.now layout entered.now used.now) out.old 0 out.new result }
{
    let locations = layout.rules_start - 3 - layout.locations;
    let places = rank(entered, entered.len());
    let rules = rank(used, used.len());
    let count = copy(file, 0, locations, out, 0);
    let left = put(places, out, count);
    let counted = lay_left(file, locations + 1, entered, out, left);
    let first = put_pair(rules, out, counted);
    lay_rules(file, layout, entered, used, out, first)
}
