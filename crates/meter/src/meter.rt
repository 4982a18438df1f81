// Setting up, and the two halves of a tick.
ghost use Rattle.std.specs.Prelude.{◌≤◌, length};
ghost use Rattle.refusals.specs.Refused.{refusal_in, told};
ghost use Rattle.meter.specs.Promises.{MeterNewPromise, MeterInputPromise, MeterOutputPromise, SettledPromise, ReleasePromise};

use crate::signals::{no_signals, signals_of, with_pulse};
use crate::station::{
    LAST, STATION, TOTALS, add_pulses, clear_totals, has_room, pulses, put_station, station_state,
};
use bays::odd_refusal;
use enforcer::{input_half, output_of};
use refusals::Refusal;
use stepping::State;

// The station is at the start, with the first reading, and both totals are 0. 14 where a slice is too short: fewer than six numbers, or than two totals.
pub fn meter_new(station: &mut [u16], totals: &mut [u32], register: u16) -> Result<(), Refusal>
    ensures { MeterNewPromise station.old totals.old register (refusal_in result) station.new totals.new }
{
    if station.len() < STATION || totals.len() < TOTALS {
        return Err(Refusal::NoRoom);
    }
    put_station(station, State::start(), register);
    clear_totals(totals);
    Ok(())
}

// 22, 1 to 9, 26, 10, 16 (also for fewer than six numbers), 15, 17.
pub fn meter_input(
    reading: u8,
    file: &[u8],
    marks: &[u8],
    station: &[u16],
    register: u16,
    x: u8,
) -> Result<u8, Refusal>
    ensures { MeterInputPromise reading file.now marks.now station.now register x (told result) }
{
    let Some(signals) = signals_of(file) else {
        return Err(no_signals(reading, file));
    };
    if station.len() < STATION {
        return Err(odd_refusal(reading, file, marks, true));
    }
    let n = pulses(register, station[LAST]);
    let z = with_pulse(x, signals.pulse, n);
    input_half(reading, file, marks, station_state(station), z)
}

// Past the output half, which released y from the state before `next`: the pulses go into a total, or 27 is refused before any change.
fn settle(
    station: &mut [u16],
    totals: &mut [u32],
    next: State,
    register: u16,
    billed: bool,
    y: u8,
) -> Result<u8, Refusal>
    requires { (6 ≤ length station.old) × (2 ≤ length totals.old) }
    ensures { SettledPromise station.old totals.old next register billed y (told result) station.new totals.new }
{
    let n = pulses(register, station[LAST]);
    if !has_room(totals, billed, n) {
        return Err(Refusal::FullTotal);
    }
    put_station(station, next, register);
    add_pulses(totals, billed, n);
    Ok(y)
}

// The output half of a station with a meter, past 26 and slices that are too short. D has this weight in an output.
fn release(
    reading: u8,
    file: &[u8],
    marks: &[u8],
    station: &mut [u16],
    totals: &mut [u32],
    register: u16,
    x: u8,
    y: u8,
    weight: u8,
) -> Result<u8, Refusal>
    requires { (6 ≤ length station.old) × (2 ≤ length totals.old) }
    ensures { ReleasePromise reading file.now marks.now station.old totals.old register x y weight (told result) station.new totals.new }
{
    let given = station_state(station);
    let (released, next) = output_of(given, reading, file, marks, x, y)?;
    let billed = released & weight != 0;
    settle(station, totals, next, register, billed, released)
}

// 22, 1 to 9, 26, 10, 14, 16, 15, 17, 27. With a refusal both slices stay as they were.
pub fn meter_output(
    reading: u8,
    file: &[u8],
    marks: &[u8],
    station: &mut [u16],
    totals: &mut [u32],
    register: u16,
    x: u8,
    y: u8,
) -> Result<u8, Refusal>
    ensures { MeterOutputPromise reading file.now marks.now station.old totals.old register x y (told result) station.new totals.new }
{
    let Some(signals) = signals_of(file) else {
        return Err(no_signals(reading, file));
    };
    if station.len() < STATION || totals.len() < TOTALS {
        return Err(odd_refusal(reading, file, marks, false));
    }
    release(
        reading,
        file,
        marks,
        station,
        totals,
        register,
        x,
        y,
        signals.dispense,
    )
}
