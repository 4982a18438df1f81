// What a rule of the file asks.
ghost use Rattle.std.specs.Prelude.{◌+◌, ◌≤◌, ◌<◌, length};
ghost use Rattle.policy.specs.File.{rule_count, policy_of};
ghost use Rattle.texts.specs.Wrote.{Wrote};
ghost use Rattle.stepping.specs.Ready.{Laid};
ghost use Rattle.sentences.specs.Text.{asks_of};

use asks::put_asks;
use policy::Layout;

// By the tags of the signals and the bytes of the rule with the number i.
pub(crate) fn put_asked(text: &mut [u8], at: usize, file: &[u8], layout: Layout, i: usize) -> usize
    requires laid { Laid file.now layout × (i < rule_count file.now) }
    requires i_in_bounds { at + length (asks_of (policy_of layout.reading file.now) i) ≤ length text.old }
    ensures { Wrote text.old at (asks_of (policy_of layout.reading file.now) i) result text.new }
{
    let inputs_end = 1 + layout.inputs;
    let outputs_start = inputs_end + 1;
    let outputs_end = outputs_start + layout.outputs;
    let size = 7 + 4 * layout.clocks;
    let rule_start = layout.rules_start + i * size;
    let rule_end = rule_start + size;
    put_asks(
        text,
        at,
        &file[1..inputs_end],
        &file[outputs_start..outputs_end],
        &file[rule_start..rule_end],
        layout.clocks,
    )
}
