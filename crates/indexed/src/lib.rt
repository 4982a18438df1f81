// The halves that use an index. For every input they answer what the present halves do; any other index is refused by 28. What they answer stands in specs/.
#![tactic(auto)]

ghost use Rattle.std.specs.Prelude.{◌≡◌};
ghost use Rattle.refusals.specs.Refused.{told};
ghost use Rattle.enforcer.specs.Promises.{handed};
ghost use Rattle.indexed.specs.Entries.{layout_by_index};
ghost use Rattle.indexed.specs.Promises.{InputIndexedPromise, OutputIndexedPromise};

use enforcer::{check_state, input_by, output_by};
use index::{is_index, own_at};
use policy::{Layout, layout_under};
use refusals::Refusal;
use stepping::State;

// The layout of a file that passes, where the index is the file's and there is a mark for each state. 22 and 1 to 9, then 28, then 10.
#[inline]
pub fn layout_by_index(
    reading: u8,
    file: &[u8],
    index: &[u16],
    marks: &[u8],
) -> Result<Layout, Refusal>
    ensures { told result ≡ layout_by_index reading file.now index.now marks.now }
{
    let layout = layout_under(reading, file)?;
    if !is_index(file, layout, index) {
        return Err(Refusal::OtherIndex);
    }
    if marks.len() < layout.states {
        return Err(Refusal::FewMarks);
    }
    Ok(layout)
}

// 22, 1 to 9, 28, 10, 16, 15, 17.
pub fn input_indexed(
    reading: u8,
    file: &[u8],
    index: &[u16],
    marks: &[u8],
    state: State,
    x: u8,
) -> Result<u8, Refusal>
    ensures { InputIndexedPromise reading file.now index.now marks.now state x (told result) }
{
    let layout = layout_by_index(reading, file, index, marks)?;
    check_state(file, layout, marks, state)?;
    let own = own_at(file, layout, index, state.location);
    input_by(file, layout, own, marks, state, x)
}

// By value: what is released for y, and the next state. 22, 1 to 9, 28, 10, 16, 15, 17.
pub fn output_indexed(
    reading: u8,
    file: &[u8],
    index: &[u16],
    marks: &[u8],
    state: State,
    x: u8,
    y: u8,
) -> Result<(u8, State), Refusal>
    ensures { OutputIndexedPromise reading file.now index.now marks.now state x y (handed state result) }
{
    let layout = layout_by_index(reading, file, index, marks)?;
    check_state(file, layout, marks, state)?;
    let own = own_at(file, layout, index, state.location);
    output_by(file, layout, own, marks, state, x, y)
}
