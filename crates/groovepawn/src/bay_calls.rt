// Several bays, for a controller in C: their states are one list, five numbers a bay.
ghost use Rattle.groovepawn.specs.Bays.{NewCall, BayInputCall, BayOutputCall};

use crate::answer_word;
use refusals::number;

// Refusals: 25.
pub fn groovepawn_bays_new(states: &mut [u16]) -> u32
    ensures { NewCall states.old result states.new }
{
    u32::from(number(bays::bays_new(states)))
}

// Refusals: 22, 1 to 10, 24, 16, 15, 17.
pub fn groovepawn_bay_input(
    reading: u8,
    file: &[u8],
    marks: &[u8],
    states: &[u16],
    bay: u32,
    x: u8,
) -> u32
    ensures { BayInputCall reading file.now marks.now states.now bay x result }
{
    answer_word(bays::bay_input(reading, file, marks, states, bay as usize, x))
}

// Refusals: 22, 1 to 10, 24, 16, 15, 17. With a refusal the list stays.
pub fn groovepawn_bay_output(
    reading: u8,
    file: &[u8],
    marks: &[u8],
    states: &mut [u16],
    bay: u32,
    x: u8,
    y: u8,
) -> u32
    ensures { BayOutputCall reading file.now marks.now states.old bay x y result states.new }
{
    answer_word(bays::bay_output(reading, file, marks, states, bay as usize, x, y))
}
