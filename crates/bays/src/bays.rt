// A new list, and the two halves of a bay's tick.
ghost use Rattle.std.specs.Prelude.{◌≡◌, ◌<◌};
ghost use Rattle.refusals.specs.Refused.{number_of, refusal_in, told};
ghost use Rattle.bays.specs.Bays.{bays_in, bay_count, bay_state, with_state};
ghost use Rattle.bays.specs.Entries.{started, no_bay};
ghost use Rattle.bays.specs.Promises.{NewPromise, BayInputPromise, BayOutputPromise};

use enforcer::{input_half, layout_for, output_of};
use refusals::Refusal;
use stepping::State;
use stepping::five::{STATE_NUMBERS, put_state, state_of};

// How many bays a list has at the most.
const BAYS: usize = 8;

// How many bays so many numbers are, or 0 where they are no list.
fn bays_in(numbers: usize) -> usize
    ensures { result ≡ bays_in numbers }
{
    if numbers % STATE_NUMBERS != 0 || BAYS * STATE_NUMBERS < numbers {
        return 0;
    }
    numbers / STATE_NUMBERS
}

// What is refused where there is no such bay: 22 and 1 to 10, then 24.
fn no_bay(reading: u8, file: &[u8], marks: &[u8]) -> Refusal
    ensures { number_of result ≡ no_bay reading file.now marks.now }
{
    match layout_for(reading, file, marks) {
        Err(refusal) => refusal,
        Ok(_) => Refusal::NoBay,
    }
}

// The state of a bay.
fn bay_state(states: &[u16], bay: usize) -> State
    requires { bay < bay_count states.now }
    ensures { result ≡ bay_state states.now bay }
{
    let from = bay * STATE_NUMBERS;
    let to = from + STATE_NUMBERS;
    state_of(&states[from..to])
}

// The next state of a bay goes into the list.
fn put_bay(states: &mut [u16], bay: usize, next: State)
    requires { bay < bay_count states.old }
    ensures { states.new ≡ with_state states.old bay next }
{
    let start = bay * STATE_NUMBERS;
    let end = start + STATE_NUMBERS;
    put_state(&mut states[start..end], next);
}

// Every bay of the list is at the start, whose five numbers are 0.
fn start_all(states: &mut [u16])
    requires { 0 < bay_count states.old }
    ensures { states.new ≡ started (bay_count states.old) }
{
    states.fill(0);
}

// A new list: every bay is at the start, or 25 is refused and nothing is written.
pub fn bays_new(states: &mut [u16]) -> Result<(), Refusal>
    ensures { NewPromise states.old (refusal_in result) states.new }
{
    if bays_in(states.len()) == 0 {
        return Err(Refusal::BadBays);
    }
    start_all(states);
    Ok(())
}

// 22, 1 to 10, 24, 16, 15, 17.
pub fn bay_input(
    reading: u8,
    file: &[u8],
    marks: &[u8],
    states: &[u16],
    bay: usize,
    x: u8,
) -> Result<u8, Refusal>
    ensures { BayInputPromise reading file.now marks.now states.now bay x (told result) }
{
    if bays_in(states.len()) <= bay {
        return Err(no_bay(reading, file, marks));
    }
    input_half(reading, file, marks, bay_state(states, bay), x)
}

// 22, 1 to 10, 24, 16, 15, 17. With a refusal the list stays as it was.
pub fn bay_output(
    reading: u8,
    file: &[u8],
    marks: &[u8],
    states: &mut [u16],
    bay: usize,
    x: u8,
    y: u8,
) -> Result<u8, Refusal>
    ensures { BayOutputPromise reading file.now marks.now states.old bay x y (told result) states.new }
{
    if bays_in(states.len()) <= bay {
        return Err(no_bay(reading, file, marks));
    }
    let given = bay_state(states, bay);
    let (released, next) = output_of(given, reading, file, marks, x, y)?;
    put_bay(states, bay, next);
    Ok(released)
}
