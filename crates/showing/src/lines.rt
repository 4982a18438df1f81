// The text line by line: a line for each signal, clock, location and rule, in this order.
ghost use Rattle.std.specs.Prelude.{◌≡◌, ◌+◌, ◌*◌, ◌^◌, ◌≤◌, ◌<◌, length};
ghost use Rattle.policy.specs.File.{rule_size};
ghost use Rattle.texts.specs.Wrote.{Wrote};
ghost use Rattle.showing.specs.Lines.{LaidOut, LineAt, line_count, rule_line, source_before};

use crate::declared::{put_clock, put_place, put_tag};
use policy::Layout;
use policy::bytes::{byte_within, pair_within};
use policy::limits::{BOUND_SIZE, RULE_HEAD};
use rule_text::{put_at, put_rule};

// No line is longer, with the `at` before it.
pub(crate) const LINE: usize = 216;

pub(crate) fn line_count(layout: Layout) -> usize
    requires { (layout.inputs ≤ 4) × (layout.outputs ≤ 4) × (layout.clocks ≤ 4) × (layout.locations ≤ 64) × (layout.rules ≤ 256) }
    ensures { result ≡ layout.inputs + layout.outputs + layout.clocks + layout.locations + layout.rules }
{
    layout.inputs + layout.outputs + layout.clocks + layout.locations + layout.rules
}

// Where the i-th rule stands in the file.
fn rule_at(layout: Layout, i: usize) -> usize
    requires { (i ≤ 256) × (layout.clocks ≤ 4) × (layout.rules_start < 2 ^ 16) }
    ensures { result ≡ layout.rules_start + i * rule_size layout.clocks }
{
    layout.rules_start + i * (RULE_HEAD + BOUND_SIZE * layout.clocks)
}

// The source of the rule before the i-th. No location has the number 255: the first rule gets its `at`.
fn source_before(file: &[u8], layout: Layout, i: usize) -> usize
    requires { LaidOut file.now layout × (i < layout.rules) }
    ensures { result ≡ source_before file.now i }
{
    if i == 0 {
        return 255;
    }
    byte_within(file, rule_at(layout, i - 1))
}

// The i-th rule's line. Before the first rule of a location stands its `at`.
fn put_ruled(text: &mut [u8], at: usize, file: &[u8], layout: Layout, i: usize) -> usize
    requires { LaidOut file.now layout × (i < layout.rules) × (at + 216 ≤ length text.old) }
    ensures { Wrote text.old at (rule_line file.now i) result text.new × (result ≤ at + 216) }
{
    let rule = rule_at(layout, i);
    let before = source_before(file, layout, i);
    let source = byte_within(file, rule);
    let next = put_at(text, at, before, source);
    let inputs_end = 1 + layout.inputs;
    let outputs_start = inputs_end + 1;
    let outputs_end = outputs_start + layout.outputs;
    put_rule(
        text,
        next,
        &file[1..inputs_end],
        &file[outputs_start..outputs_end],
        file,
        rule,
        layout.clocks,
    )
}

// The i-th line.
pub(crate) fn put_line(text: &mut [u8], at: usize, file: &[u8], layout: Layout, i: usize) -> usize
    requires { LaidOut file.now layout × (i < line_count file.now) × (at + 216 ≤ length text.old) }
    ensures { LineAt file.now i text.old at result text.new × (result ≤ at + 216) }
{
    if i < layout.inputs {
        return put_tag(text, at, b"input", file[1 + i]);
    }
    let output = i - layout.inputs;
    if output < layout.outputs {
        return put_tag(text, at, b"output", file[2 + i]);
    }
    let clock = output - layout.outputs;
    let ceilings = 3 + layout.inputs + layout.outputs;
    if clock < layout.clocks {
        let ceiling = pair_within(file, ceilings + 2 * clock);
        return put_clock(text, at, clock, ceiling);
    }
    let location = clock - layout.clocks;
    if location < layout.locations {
        let byte = file[ceilings + 2 * layout.clocks + 1 + location];
        return put_place(text, at, location, byte);
    }
    put_ruled(text, at, file, layout, location - layout.locations)
}
