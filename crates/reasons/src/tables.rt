// What is refused: 22, 1 to 10, 16, 20, 15.
ghost use Rattle.std.specs.Prelude.{◌≡◌, length};
ghost use Rattle.std.specs.Result.{IfOk};
ghost use Rattle.refusals.specs.Refused.{refusal_in};
ghost use Rattle.enforcer.specs.States.{Granted};
ghost use Rattle.reasons.specs.Granted.{Refuses};

use counting::count;
use enforcer::{check_state, layout_for};
use leading::values;
use policy::Layout;
use refusals::Refusal;
use stepping::State;

// The layout, where nothing is refused; then the tables begin with the counts of the states.
pub(crate) fn counted(
    reading: u8,
    file: &[u8],
    marks: &[u8],
    state: State,
    x: u8,
    y: u8,
    ticks: &mut [u32],
    rests: &mut [u32],
) -> Result<Layout, Refusal>
    requires { (length ticks.old ≡ 65536) × (length rests.old ≡ 65536) }
    ensures refuses { Refuses reading file.now marks.now state x y (refusal_in result) ticks.new rests.new }
    ensures granted { IfOk result (λ l. Granted reading file.now marks.now l) }
{
    let layout = layout_for(reading, file, marks)?;
    check_state(file, layout, marks, state)?;
    let states = layout.states;
    let others = count(
        file,
        layout,
        marks,
        &mut ticks[..states],
        &mut rests[..states],
    );
    if others {
        return Err(Refusal::OtherMarks);
    }
    if values(layout.inputs) <= x as usize {
        return Err(Refusal::BadEvent);
    }
    if values(layout.outputs) <= y as usize {
        return Err(Refusal::BadEvent);
    }
    Ok(layout)
}
