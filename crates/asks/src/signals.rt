// The signals that must be on, and those that must be off.
ghost use Rattle.std.specs.Prelude.{◌+◌, ◌≤◌, ◌<◌, length};
ghost use Rattle.policy.specs.File.{byte_at};
ghost use Rattle.texts.specs.Wrote.{Wrote};
ghost use Rattle.asks.specs.Words.{name, names, signals, cared};

use policy::bytes::byte_within;
use texts::put_bytes;

fn put_name(text: &mut [u8], at: usize, tag: u8, mask: usize) -> usize
    requires { at + length (name tag mask) ≤ length text.old }
    ensures { Wrote text.old at (name tag mask) result text.new }
{
    if mask % 2 == 1 {
        return put_bytes(text, at, &[b' ', tag]);
    }
    at
}

fn put_names(text: &mut [u8], at: usize, tags: &[u8], mask: usize) -> usize
    requires { at + length (names tags.now mask) ≤ length text.old }
    ensures { Wrote text.old at (names tags.now mask) result text.new }
{
    let mut next = at;
    let mut mask_on = mask;
    for tag in tags {
        next = put_name(text, next, *tag, mask_on);
        mask_on /= 2;
    }
    next
}

// Nothing, where the masks x and y name none.
fn put_signals(
    text: &mut [u8],
    at: usize,
    inputs: &[u8],
    outputs: &[u8],
    x: usize,
    y: usize,
    word: &[u8],
) -> usize
    requires { (x < 256) × (y < 256) × (at + length (signals inputs.now outputs.now x y word.now) ≤ length text.old) }
    ensures { Wrote text.old at (signals inputs.now outputs.now x y word.now) result text.new }
{
    if x + y == 0 {
        return at;
    }
    let first = put_bytes(text, at, b",");
    let more = put_names(text, first, inputs, x);
    let end = put_names(text, more, outputs, y);
    put_bytes(text, end, word)
}

// By the rule's masks.
pub(crate) fn put_cared(
    text: &mut [u8],
    at: usize,
    inputs: &[u8],
    outputs: &[u8],
    rule: &[u8],
) -> usize
    requires in_bounds { (7 ≤ length rule.now) × (byte_at rule.now 2 ≤ byte_at rule.now 1) × (byte_at rule.now 4 ≤ byte_at rule.now 3) }
    requires rule_in_bounds { at + length (cared inputs.now outputs.now (byte_at rule.now 1) (byte_at rule.now 2) (byte_at rule.now 3) (byte_at rule.now 4)) ≤ length text.old }
    ensures { Wrote text.old at (cared inputs.now outputs.now (byte_at rule.now 1) (byte_at rule.now 2) (byte_at rule.now 3) (byte_at rule.now 4)) result text.new }
{
    let x_on = byte_within(rule, 2);
    let y_on = byte_within(rule, 4);
    let x_off = byte_within(rule, 1) - x_on;
    let y_off = byte_within(rule, 3) - y_on;
    let off = put_signals(text, at, inputs, outputs, x_on, y_on, b" on");
    put_signals(text, off, inputs, outputs, x_off, y_off, b" off")
}
