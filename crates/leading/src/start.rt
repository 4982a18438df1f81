// What a pass over a location's rules begins with: how many values there are, and all events.
ghost use Rattle.std.specs.Prelude.{◌≡◌, ◌≤◌, replicate};
ghost use Rattle.policy.specs.Rules.{input_values, output_values};
ghost use Rattle.policy.specs.File.{policy_of};
ghost use Rattle.choice.specs.Sets.{all_below};
ghost use Rattle.choice.specs.Changed.{Changed};
ghost use Rattle.stepping.specs.Ready.{Laid};

use crate::reach::values;
use choice::room;
use policy::Layout;

// How many values the inputs of the policy have.
pub fn inputs_of(file: &[u8], layout: Layout) -> usize
    requires { Laid file.now layout }
    ensures { (result ≡ input_values (policy_of layout.reading file.now)) × (result ≤ 16) }
{
    values(layout.inputs)
}

// How many values its outputs have.
pub fn outputs_of(file: &[u8], layout: Layout) -> usize
    requires { Laid file.now layout }
    ensures { (result ≡ output_values (policy_of layout.reading file.now)) × (result ≤ 16) }
{
    values(layout.outputs)
}

// Before the first rule every event in range is left: with each input all outputs.
pub fn all_left(file: &[u8], layout: Layout) -> [u16; 16]
    requires { Laid file.now layout }
    ensures { Changed (λ x. all_below (output_values (policy_of layout.reading file.now))) (input_values (policy_of layout.reading file.now)) (replicate 16 0) result }
{
    room(inputs_of(file, layout), outputs_of(file, layout))
}
