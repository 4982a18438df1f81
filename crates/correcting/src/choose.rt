// Which input and which output stand: of those that lead on, the nearest to the one as read.
ghost use Rattle.std.specs.Prelude.{◌≡◌, ◌<◌};
ghost use Rattle.policy.specs.Rules.{input_values};
ghost use Rattle.policy.specs.File.{policy_of};
ghost use Rattle.stepping.specs.Tick.{input_choice, output_choice};
ghost use Rattle.stepping.specs.State.{place};
ghost use Rattle.stepping.specs.Ready.{Ready};
ghost use Rattle.choice.specs.Said.{choice_said};

use choice::{nearest, standing};
use leading::{allowed, inputs_of, may_stand, outputs_of, reaches, row};
use policy::Layout;
use stepping::Here;

// The input as read is asked about alone; if it may not stand, one pass over the rules gives all that may.
pub fn choose_input(file: &[u8], layout: Layout, here: Here, marks: &[u8], x: u8) -> Option<u8>
    requires { Ready file.now layout here marks.now × (x < input_values (policy_of layout.reading file.now)) }
    ensures { choice_said result ≡ input_choice (policy_of layout.reading file.now) marks.now (place layout.clocks here.state) x }
{
    if may_stand(file, layout, here, marks, x) {
        return Some(x);
    }
    let sets = allowed(file, layout, here, marks);
    nearest(standing(sets), x, inputs_of(file, layout))
}

// The output as read is asked about alone too, if it is one; if it may not stand with x, one is chosen from the outputs that may.
pub(crate) fn choose_output(
    file: &[u8],
    layout: Layout,
    here: Here,
    marks: &[u8],
    x: u8,
    y: u8,
) -> Option<u8>
    requires { Ready file.now layout here marks.now }
    ensures { choice_said result ≡ output_choice (policy_of layout.reading file.now) marks.now (place layout.clocks here.state) x y }
{
    let n = outputs_of(file, layout);
    if (y as usize) < n && reaches(file, layout, here, marks, x, y) {
        return Some(y);
    }
    nearest(row(file, layout, here, marks, x), y, n)
}
