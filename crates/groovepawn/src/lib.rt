// The entries for a controller in C: each answer is one number, a state five. They are the location and then the four clock values.
// What each call promises stands in specs/.
#![tactic(auto)]

mod bay_calls;
mod check_call;
mod clean_call;
mod index_calls;
mod join_call;
mod meter_calls;
mod second;
mod text_calls;
mod ticks_call;
mod viewer;
mod why_call;

ghost use Rattle.std.specs.Prelude.{◌≡◌, ◌<◌};
ghost use Rattle.streams.specs.Answer.{gives};
ghost use Rattle.refusals.specs.Refused.{number_of, told};
ghost use Rattle.enforcer.specs.Promises.{refusal_said};
ghost use Rattle.prepare.specs.declared.Summary.{Summary};
ghost use Rattle.groovepawn.specs.Bounds.{Small};
ghost use Rattle.groovepawn.specs.Words.{answer_word, summary_word};
ghost use Rattle.groovepawn.specs.Calls.{PrepareCall, InputCall, OutputCall, RunCall};

pub use bay_calls::{groovepawn_bay_input, groovepawn_bay_output, groovepawn_bays_new};
use bays::odd_refusal;
pub use check_call::groovepawn_check;
pub use clean_call::groovepawn_clean;
use enforcer::{input_half, output_half, run};
pub use index_calls::{groovepawn_index, groovepawn_input_indexed, groovepawn_output_indexed};
pub use join_call::groovepawn_join;
pub use meter_calls::{groovepawn_meter_input, groovepawn_meter_new, groovepawn_meter_output};
use prepare::Summary;
use refusals::Refusal;
pub use second::groovepawn_prepare_fast;
use stepping::five::{STATE_NUMBERS, put_state, state_of};
pub use text_calls::{
    groovepawn_text_line_of_rule, groovepawn_text_name_of_clock, groovepawn_text_name_of_location,
    groovepawn_text_name_of_signal, groovepawn_text_read, groovepawn_text_write,
};
pub use ticks_call::groovepawn_ticks;
pub use viewer::{groovepawn_wave_read, groovepawn_wave_write};
pub use why_call::{groovepawn_why, groovepawn_why_run};

// The word of a refusal is its number.
pub(crate) fn refusal_word(refusal: Refusal) -> u32
    ensures { result ≡ number_of refusal }
{
    u32::from(u8::from(refusal))
}

pub(crate) fn answer_word(answer: Result<u8, Refusal>) -> u32
    ensures { result ≡ answer_word (told answer) }
{
    match answer {
        Ok(value) => u32::from(value) * 256,
        Err(refusal) => refusal_word(refusal),
    }
}

// The low eight bits of a run's word.
pub(crate) fn refused_word(refusal: Option<Refusal>) -> u64
    ensures { (result ≡ refusal_said refusal) × (result < 256) }
{
    match refusal {
        Some(refusal) => u64::from(refusal_word(refusal)),
        None => 0,
    }
}

// Of both engines. The numbers of a summary are small, so that no field reaches into the next.
pub(crate) fn summary_word(prepared: Result<Summary, Refusal>) -> u64
    requires { (s : Summary) → told prepared ≡ gives s → Small s }
    ensures { result ≡ summary_word (told prepared) }
{
    match prepared {
        Ok(s) => packing::pack_summary(s.verdict, s.states, s.live),
        Err(refusal) => u64::from(refusal_word(refusal)),
    }
}

// Refusals: 22, 1 to 10, 11: with 11 the marks are written as with no refusal.
pub fn groovepawn_prepare(reading: u8, file: &[u8], marks: &mut [u8]) -> u64
    ensures { PrepareCall reading file.now marks.old result marks.new }
{
    summary_word(prepare::prepare(reading, file, marks))
}

// Refusals: 22, 1 to 10, 16 (also for a state that is not five numbers), 15, 17.
pub fn groovepawn_input(reading: u8, file: &[u8], marks: &[u8], state: &[u16], x: u8) -> u32
    ensures { InputCall reading file.now marks.now state.now x result }
{
    if state.len() != STATE_NUMBERS {
        return refusal_word(odd_refusal(reading, file, marks, true));
    }
    answer_word(input_half(reading, file, marks, state_of(state), x))
}

// Refusals: 22, 1 to 10, 16, 15, 17. With a refusal the state stays.
pub fn groovepawn_output(
    reading: u8,
    file: &[u8],
    marks: &[u8],
    state: &mut [u16],
    x: u8,
    y: u8,
) -> u32
    ensures { OutputCall reading file.now marks.now state.old x y result state.new }
{
    if state.len() != STATE_NUMBERS {
        return refusal_word(odd_refusal(reading, file, marks, true));
    }
    let mut held = state_of(state);
    let answer = output_half(&mut held, reading, file, marks, x, y);
    put_state(state, held);
    answer_word(answer)
}

// Refusals: 22, 1 to 10, 14, 16, 15, 17. Only 17 leaves events released, and the state there.
pub fn groovepawn_run(
    reading: u8,
    file: &[u8],
    marks: &[u8],
    state: &mut [u16],
    events: &[u8],
    released: &mut [u8],
) -> u64
    ensures { RunCall reading file.now marks.now state.old events.now released.old result state.new released.new }
{
    if state.len() != STATE_NUMBERS {
        let odd = odd_refusal(reading, file, marks, events.len() <= released.len());
        return u64::from(refusal_word(odd));
    }
    let given = state_of(state);
    let ran = run(reading, file, marks, given, events, released);
    let after = ran.state;
    put_state(state, after);
    refused_word(ran.refusal) + ran.count as u64 % 72057594037927936 * 256
}
