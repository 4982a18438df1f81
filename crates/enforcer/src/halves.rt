// The input half, and the output half by value. Past the refusals a half asks whether the event stands as it was read: mostly it does. Only if not does it choose.
ghost use Rattle.std.specs.Prelude.{◌≡◌, ◌≤◌, length};
ghost use Rattle.refusals.specs.Refused.{refusal_in, told};
ghost use Rattle.policy.specs.Number.{states};
ghost use Rattle.policy.specs.File.{policy_of, rules_of};
ghost use Rattle.policy.specs.Own.{own_of};
ghost use Rattle.stepping.specs.State.{state_good, place};
ghost use Rattle.enforcer.specs.Entries.{layout_for, state_refusal, input_past, output_past};
ghost use Rattle.stepping.specs.Ready.{Laid, Standing};
ghost use Rattle.enforcer.specs.Promises.{InputPromise, OutputPromise, handed};

use correcting::{choose_input, output_arrival, output_tick};
use leading::{input_reaches, inputs_of, outputs_of};
use policy::{Layout, Own, layout_under};
use refusals::Refusal;
use stepping::{State, here_by, own_of};

// The layout of a file that passes, where there is a mark for each state. 22, 1 to 10.
#[inline]
pub fn layout_for(reading: u8, file: &[u8], marks: &[u8]) -> Result<Layout, Refusal>
    ensures { told result ≡ layout_for reading file.now marks.now }
{
    let layout = layout_under(reading, file)?;
    if marks.len() < layout.states {
        return Err(Refusal::FewMarks);
    }
    Ok(layout)
}

// The state is within its own limits, which no policy goes beyond, and in range in this policy, where an unused clock has the ceiling 0.
fn state_good(file: &[u8], layout: Layout, state: State) -> bool
    requires { Laid file.now layout }
    ensures { result ≡ state_good (policy_of layout.reading file.now) state }
{
    let most = State::limits();
    let highest = [most.ceiling as u16; State::CLOCKS];
    let ceilings = layout.ceilings;
    state.in_range(most.locations, highest) && state.in_range(layout.locations, ceilings)
}

// 16 where the state is not in range or not marked.
pub fn check_state(file: &[u8], layout: Layout, marks: &[u8], state: State) -> Result<(), Refusal>
    requires { Laid file.now layout × (states (policy_of layout.reading file.now) ≤ length marks.now) }
    ensures { refusal_in result ≡ state_refusal layout.reading file.now marks.now state }
{
    if !state_good(file, layout, state) {
        return Err(Refusal::BadState);
    }
    let ceilings = layout.ceilings;
    let number = state.number(ceilings, layout.clocks);
    if marks[number] != 1 {
        return Err(Refusal::BadState);
    }
    Ok(())
}

// The input that is passed to the controller. 22, 1 to 10, 16, 15, 17. The slices are handed on as parts of their own, so that the compiler need not keep them in memory for what is asked here.
pub fn input_half(
    reading: u8,
    file: &[u8],
    marks: &[u8],
    state: State,
    x: u8,
) -> Result<u8, Refusal>
    ensures { InputPromise reading file.now marks.now state x (told result) }
{
    let layout = layout_for(reading, &file[..], marks)?;
    check_state(file, layout, marks, state)?;
    if inputs_of(file, layout) <= x as usize {
        return Err(Refusal::BadEvent);
    }
    let own = own_of(file, layout, state);
    let here = here_by(file, layout, own, state);
    if input_reaches(file, layout, here, marks, x) {
        return Ok(x);
    }
    input_by(&file[..], layout, own, &marks[..], state, x)
}

// The input half past 16, by the rules of the state's location.
pub fn input_by(
    file: &[u8],
    layout: Layout,
    own: Own,
    marks: &[u8],
    state: State,
    x: u8,
) -> Result<u8, Refusal>
    requires { Standing file.now layout marks.now state × (own ≡ own_of layout.clocks state.location (rules_of file.now)) }
    ensures { told result ≡ input_past layout.reading file.now marks.now (place layout.clocks state) x }
{
    if inputs_of(file, layout) <= x as usize {
        return Err(Refusal::BadEvent);
    }
    let here = here_by(file, layout, own, state);
    choose_input(file, layout, here, marks, x).ok_or(Refusal::NothingStands)
}

// The output half past 16, by the rules of the state's location.
pub fn output_by(
    file: &[u8],
    layout: Layout,
    own: Own,
    marks: &[u8],
    state: State,
    x: u8,
    y: u8,
) -> Result<(u8, State), Refusal>
    requires { Standing file.now layout marks.now state × (own ≡ own_of layout.clocks state.location (rules_of file.now)) }
    ensures { handed state result ≡ output_past layout.reading file.now marks.now state (place layout.clocks state) x y }
{
    if inputs_of(file, layout) <= x as usize {
        return Err(Refusal::BadEvent);
    }
    if outputs_of(file, layout) <= y as usize {
        return Err(Refusal::BadEvent);
    }
    let here = here_by(file, layout, own, state);
    let tick = output_tick(file, layout, here, marks, x, y).ok_or(Refusal::NothingStands)?;
    Ok((tick.y, tick.state))
}

// The state takes the x that was passed to the controller and its answer y: what is released for y, and the next state. 22, 1 to 10, 16, 15, 17.
pub fn output_of(
    state: State,
    reading: u8,
    file: &[u8],
    marks: &[u8],
    x: u8,
    y: u8,
) -> Result<(u8, State), Refusal>
    ensures { OutputPromise reading file.now marks.now state x y (handed state result) }
{
    let layout = layout_for(reading, &file[..], marks)?;
    check_state(file, layout, marks, state)?;
    if inputs_of(file, layout) <= x as usize {
        return Err(Refusal::BadEvent);
    }
    if outputs_of(file, layout) <= y as usize {
        return Err(Refusal::BadEvent);
    }
    let own = own_of(file, layout, state);
    let here = here_by(file, layout, own, state);
    if let Some(next) = output_arrival(file, layout, here, marks, x, y) {
        return Ok((y, next));
    }
    output_by(&file[..], layout, own, &marks[..], state, x, y)
}
