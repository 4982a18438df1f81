// Reasons for a controller in C: for one event, and for a run of them.
ghost use Rattle.std.specs.Prelude.{◌≡◌};
ghost use Rattle.refusals.specs.Refused.{number_of};
ghost use Rattle.reasons.specs.Promise.{answer_numbered, answer_said};
ghost use Rattle.groovepawn.specs.Why.{WhyCall, odd_why_run, WhyRunCall};

use crate::refusal_word;
use bays::odd_refusal;
use explaining::Reasons;
use reasons::{room_for, shortest, why, why_run, word};
use refusals::Refusal;
use stepping::five::{STATE_NUMBERS, put_state, state_of};

// The answer with the number of its refusal, as a word has it.
fn numbered(answer: Result<Reasons, Refusal>) -> Result<Reasons, u8>
    ensures { answer_numbered result ≡ answer_said answer }
{
    match answer {
        Ok(reasons) => Ok(reasons),
        Err(refusal) => Err(u8::from(refusal)),
    }
}

// Refusals: 22, 1 to 10, 16, 20, 15, 17.
pub fn groovepawn_why(reading: u8, file: &[u8], marks: &[u8], state: &[u16], x: u8, y: u8) -> u64
    ensures { WhyCall reading file.now marks.now state.now x y result }
{
    if state.len() != STATE_NUMBERS {
        return u64::from(refusal_word(odd_refusal(reading, file, marks, true)));
    }
    word(numbered(why(reading, file, marks, state_of(state), x, y)))
}

// What is refused where the state is not five numbers.
fn odd_why_run(
    reading: u8,
    file: &[u8],
    marks: &[u8],
    work: usize,
    events: usize,
    words: usize,
) -> Refusal
    ensures { number_of result ≡ odd_why_run reading file.now marks.now work events words }
{
    match room_for(reading, file, marks, work, events, words) {
        Err(refusal) => refusal,
        Ok(_) => Refusal::BadState,
    }
}

// Refusals 22, 1 to 10, 23, 14, 16, 20, 15; or how many events are explained.
pub fn groovepawn_why_run(
    reading: u8,
    file: &[u8],
    marks: &[u8],
    state: &mut [u16],
    events: &[u8],
    words: &mut [u64],
    ticks: &mut [u32],
    rests: &mut [u32],
    prepared: &mut [u8],
    stack: &mut [u16],
    from: &mut [u16],
    ways: &mut [u16],
    bound: &mut [u16],
    place: &mut [u16],
) -> u64
    ensures { WhyRunCall reading file.now marks.now state.old events.now words.old (record { ticks = ticks.old; rests = rests.old; prepared = prepared.old; work = record { stack = stack.old; from = from.old; ways = ways.old; bound = bound.old; place = place.old } }) result state.new words.new (record { ticks = ticks.new; rests = rests.new; prepared = prepared.new; work = record { stack = stack.new; from = from.new; ways = ways.new; bound = bound.new; place = place.new } }) }
{
    if state.len() != STATE_NUMBERS {
        let work = shortest(
            ticks.len(),
            rests.len(),
            prepared.len(),
            stack.len(),
            from.len(),
            ways.len(),
            bound.len(),
            place.len(),
        );
        let odd = odd_why_run(reading, file, marks, work, events.len(), words.len());
        return u64::from(refusal_word(odd));
    }
    let given = state_of(state);
    match why_run(
        reading, file, marks, given, events, words, ticks, rests, prepared, stack, from, ways,
        bound, place,
    ) {
        Ok(after) => {
            put_state(state, after);
            events.len() as u64 % 72057594037927936 * 256
        }
        Err(refusal) => u64::from(refusal_word(refusal)),
    }
}
