// The output half over a lent state.
ghost use Rattle.refusals.specs.Refused.{told};
ghost use Rattle.enforcer.specs.Promises.{OutputPromise};

use crate::halves::output_of;
use refusals::Refusal;
use stepping::State;

// The same in place: the lent state becomes the next one, and only the answer is handed back. 22, 1 to 10, 16, 15, 17; with a refusal the state stays.
pub fn output_half(
    state: &mut State,
    reading: u8,
    file: &[u8],
    marks: &[u8],
    x: u8,
    y: u8,
) -> Result<u8, Refusal>
    ensures { OutputPromise reading file.now marks.now state.old x y (record { answer = told result; state = state.new }) }
{
    let (released, next) = output_of(*state, reading, file, marks, x, y)?;
    *state = next;
    Ok(released)
}
