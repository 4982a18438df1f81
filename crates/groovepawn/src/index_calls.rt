// A rule index and the halves that go by it, for a controller in C.
ghost use Rattle.std.specs.Prelude.{◌≡◌};
ghost use Rattle.refusals.specs.Refused.{number_of};
ghost use Rattle.groovepawn.specs.Indexed.{odd_indexed, IndexCall, InputIndexedCall, OutputIndexedCall};

use crate::{answer_word, refusal_word};
use index::write_index;
use indexed::{input_indexed, layout_by_index, output_indexed};
use refusals::{Refusal, number};
use stepping::five::{STATE_NUMBERS, put_state, state_of};

// What is refused where the state is not five numbers.
fn odd_indexed(reading: u8, file: &[u8], index: &[u16], marks: &[u8]) -> Refusal
    ensures { number_of result ≡ odd_indexed reading file.now index.now marks.now }
{
    match layout_by_index(reading, file, index, marks) {
        Err(refusal) => refusal,
        Ok(_) => Refusal::BadState,
    }
}

// Refusals: 1 to 9, 14.
pub fn groovepawn_index(file: &[u8], index: &mut [u16]) -> u32
    ensures { IndexCall file.now index.old result index.new }
{
    u32::from(number(write_index(file, index)))
}

// Refusals: 22, 1 to 9, 28, 10, 16, 15, 17.
pub fn groovepawn_input_indexed(
    reading: u8,
    file: &[u8],
    index: &[u16],
    marks: &[u8],
    state: &[u16],
    x: u8,
) -> u32
    ensures { InputIndexedCall reading file.now index.now marks.now state.now x result }
{
    if state.len() != STATE_NUMBERS {
        return refusal_word(odd_indexed(reading, file, index, marks));
    }
    answer_word(input_indexed(reading, file, index, marks, state_of(state), x))
}

// Refusals: 22, 1 to 9, 28, 10, 16, 15, 17. With a refusal the state stays.
pub fn groovepawn_output_indexed(
    reading: u8,
    file: &[u8],
    index: &[u16],
    marks: &[u8],
    state: &mut [u16],
    x: u8,
    y: u8,
) -> u32
    ensures { OutputIndexedCall reading file.now index.now marks.now state.old x y result state.new }
{
    if state.len() != STATE_NUMBERS {
        return refusal_word(odd_indexed(reading, file, index, marks));
    }
    let given = state_of(state);
    match output_indexed(reading, file, index, marks, given, x, y) {
        Ok((released, next)) => {
            put_state(state, next);
            u32::from(released) * 256
        }
        Err(refusal) => refusal_word(refusal),
    }
}
