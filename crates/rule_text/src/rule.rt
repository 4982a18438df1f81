// A rule's line, written.
ghost use Rattle.std.specs.Prelude.{◌+◌, ◌≤◌, ◌<◌, length};
ghost use Rattle.policy.specs.File.{rule_size, rule_from};
ghost use Rattle.texts.specs.Wrote.{Wrote};
ghost use Rattle.wording.specs.Writer.{reset_names};
ghost use Rattle.rule_text.specs.Pieces.{leading, condition_text, condition_piece, target_piece, reset_piece, clear_piece, end_piece, rule_piece, at_piece};

use crate::limits::{put_bounds, put_name, put_named};
use crate::signals::put_signals;
use policy::bytes::byte_within;
use policy::limits::VIOLATION;
use texts::put_bytes;

// The rule stands in the file from `rule` on.
fn put_asked(
    text: &mut [u8],
    at: usize,
    inputs: &[u8],
    outputs: &[u8],
    file: &[u8],
    rule: usize,
    clocks: usize,
) -> usize
    requires { (length inputs.now ≤ 4) × (length outputs.now ≤ 4) × (clocks ≤ 4) × (rule + rule_size clocks ≤ length file.now) × (at + 152 ≤ length text.old) }
    ensures { Wrote text.old at (condition_text inputs.now outputs.now (rule_from clocks file.now rule)) result text.new × (result ≤ at + 152) }
{
    let first = put_signals(text, at, inputs, file[rule + 1], file[rule + 2]);
    let next = put_signals(text, first, outputs, file[rule + 3], file[rule + 4]);
    put_bounds(text, next, file, rule + 7, clocks)
}

// The conditions, or `any`.
fn put_conditions(
    text: &mut [u8],
    at: usize,
    inputs: &[u8],
    outputs: &[u8],
    file: &[u8],
    rule: usize,
    clocks: usize,
) -> usize
    requires { (length inputs.now ≤ 4) × (length outputs.now ≤ 4) × (clocks ≤ 4) × (rule + rule_size clocks ≤ length file.now) × (at + 156 ≤ length text.old) }
    ensures { Wrote text.old at (condition_piece inputs.now outputs.now (rule_from clocks file.now rule)) result text.new × (result ≤ at + 156) }
{
    let next = put_asked(text, at, inputs, outputs, file, rule, clocks);
    if next != at {
        return next;
    }
    put_bytes(text, next, b"any ")
}

fn put_target(text: &mut [u8], at: usize, target: usize) -> usize
    requires { (target < 65536) × (at + 12 ≤ length text.old) }
    ensures { Wrote text.old at (target_piece target) result text.new × (result ≤ at + 12) }
{
    if target == VIOLATION {
        return put_bytes(text, at, b"-> violation");
    }
    put_name(text, at, b"-> q", target)
}

fn put_reset(text: &mut [u8], at: usize, k: usize, mask: usize) -> usize
    requires { (k < 65536) × (at + 7 ≤ length text.old) }
    ensures { Wrote text.old at (reset_piece k mask) result text.new × (result ≤ at + 7) }
{
    if mask % 2 == 1 {
        return put_name(text, at, b" t", k);
    }
    at
}

fn put_resets(text: &mut [u8], at: usize, clocks: usize, mask: usize) -> usize
    requires { (clocks ≤ 4) × (at + 28 ≤ length text.old) }
    ensures { Wrote text.old at (leading (reset_names 0 clocks mask)) result text.new × (result ≤ at + 28) }
{
    let mut next = at;
    let mut mask_on = mask;
    for clock in 0..clocks {
        next = put_reset(text, next, clock, mask_on);
        mask_on /= 2;
    }
    next
}

fn put_clears(text: &mut [u8], at: usize, clocks: usize, mask: usize) -> usize
    requires { (clocks ≤ 4) × (at + 34 ≤ length text.old) }
    ensures { Wrote text.old at (clear_piece clocks mask) result text.new × (result ≤ at + 34) }
{
    if mask == 0 {
        return at;
    }
    let next = put_bytes(text, at, b" reset");
    put_resets(text, next, clocks, mask)
}

// Where a rule leads, and the line's end.
fn put_ending(text: &mut [u8], at: usize, clocks: usize, target: usize, mask: usize) -> usize
    requires { (clocks ≤ 4) × (target < 65536) × (at + 47 ≤ length text.old) }
    ensures { Wrote text.old at (end_piece target clocks mask) result text.new × (result ≤ at + 47) }
{
    let next = put_target(text, at, target);
    let end = put_clears(text, next, clocks, mask);
    put_bytes(text, end, b"\n")
}

pub fn put_rule(
    text: &mut [u8],
    at: usize,
    inputs: &[u8],
    outputs: &[u8],
    file: &[u8],
    rule: usize,
    clocks: usize,
) -> usize
    requires { (length inputs.now ≤ 4) × (length outputs.now ≤ 4) × (clocks ≤ 4) × (rule + rule_size clocks ≤ length file.now) × (at + 205 ≤ length text.old) }
    ensures { Wrote text.old at (rule_piece inputs.now outputs.now clocks (rule_from clocks file.now rule)) result text.new × (result ≤ at + 205) }
{
    let mask = byte_within(file, rule + 5);
    let target = byte_within(file, rule + 6);
    let next = put_bytes(text, at, b"  ");
    let end = put_conditions(text, next, inputs, outputs, file, rule, clocks);
    put_ending(text, end, clocks, target, mask)
}

// An `at` where the source is another than that of the rule before.
pub fn put_at(text: &mut [u8], at: usize, before: usize, source: usize) -> usize
    requires { (source < 65536) × (at + 11 ≤ length text.old) }
    ensures { Wrote text.old at (at_piece before source) result text.new × (result ≤ at + 11) }
{
    if before == source {
        return at;
    }
    put_named(text, at, b"\nat q", source, b"\n")
}
