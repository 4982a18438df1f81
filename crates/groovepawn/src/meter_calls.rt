// A station with a meter, for a controller in C: its state and the last register are six numbers, and the totals are two.
ghost use Rattle.groovepawn.specs.Meter.{MeterNewCall, MeterInputCall, MeterOutputCall};

use crate::answer_word;
use refusals::number;

// Refusals: 14.
pub fn groovepawn_meter_new(
    station: &mut [u16],
    totals: &mut [u32],
    reading_of_register: u16,
) -> u32
    ensures { MeterNewCall station.old totals.old reading_of_register result station.new totals.new }
{
    u32::from(number(meter::meter_new(station, totals, reading_of_register)))
}

// Refusals: 22, 1 to 9, 26, 10, 16, 15, 17.
pub fn groovepawn_meter_input(
    reading: u8,
    file: &[u8],
    marks: &[u8],
    station: &[u16],
    reading_of_register: u16,
    x: u8,
) -> u32
    ensures { MeterInputCall reading file.now marks.now station.now reading_of_register x result }
{
    answer_word(meter::meter_input(reading, file, marks, station, reading_of_register, x))
}

// Refusals: 22, 1 to 9, 26, 10, 14, 16, 15, 17, 27. With a refusal both slices stay.
pub fn groovepawn_meter_output(
    reading: u8,
    file: &[u8],
    marks: &[u8],
    station: &mut [u16],
    totals: &mut [u32],
    reading_of_register: u16,
    x: u8,
    y: u8,
) -> u32
    ensures { MeterOutputCall reading file.now marks.now station.old totals.old reading_of_register x y result station.new totals.new }
{
    answer_word(meter::meter_output(
        reading,
        file,
        marks,
        station,
        totals,
        reading_of_register,
        x,
        y,
    ))
}
