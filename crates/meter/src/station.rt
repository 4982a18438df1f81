// A station with a meter as six numbers: a state, and the register as last accepted. The totals are two: billed and unbilled. What stands past them stays.
ghost use Rattle.std.specs.Prelude.{◌≡◌, ◌+◌, ◌≤◌, true, ◌∷◌, length, drop, nat_le};
ghost use Rattle.meter.specs.Meter.{station_state, with_station, pulses_of, fits, risen};

use stepping::State;
use stepping::five::{STATE_NUMBERS, put_state, state_of};

// Where the last register stands: after the state.
pub(crate) const LAST: usize = STATE_NUMBERS;

pub(crate) const STATION: usize = STATE_NUMBERS + 1;

pub(crate) const TOTALS: usize = 2;

// The largest that a total can be.
const MOST: u32 = u32::MAX;

pub(crate) fn station_state(station: &[u16]) -> State
    requires { 6 ≤ length station.now }
    ensures { result ≡ station_state station.now }
{
    state_of(&station[..STATE_NUMBERS])
}

pub(crate) fn put_station(station: &mut [u16], next: State, register: u16)
    requires { 6 ≤ length station.old }
    ensures { station.new ≡ with_station station.old next register }
{
    station[LAST] = register;
    put_state(&mut station[..STATE_NUMBERS], next);
}

pub(crate) fn clear_totals(totals: &mut [u32])
    requires { 2 ≤ length totals.old }
    ensures { totals.new ≡ 0 ∷ 0 ∷ drop 2 totals.old }
{
    totals[0] = 0;
    totals[1] = 0;
}

// The pulses of a tick: this reading less the last, modulo 65,536.
pub(crate) fn pulses(register: u16, last: u16) -> u16
    ensures { result ≡ pulses_of register last }
{
    register.wrapping_sub(last)
}

// A total stays within its limit with the pulses.
fn fits_in(total: u32, pulses: u16) -> bool
    ensures { result ≡ nat_le (total + pulses) 4294967295 }
{
    u32::from(pulses) <= MOST - total
}

// The total that the pulses would go into stays within its limit.
pub(crate) fn has_room(totals: &[u32], billed: bool, pulses: u16) -> bool
    requires { 2 ≤ length totals.now }
    ensures { result ≡ fits totals.now billed pulses }
{
    if billed {
        return fits_in(totals[0], pulses);
    }
    fits_in(totals[1], pulses)
}

pub(crate) fn add_pulses(totals: &mut [u32], billed: bool, pulses: u16)
    requires { (2 ≤ length totals.old) × (fits totals.old billed pulses ≡ true) }
    ensures { totals.new ≡ risen totals.old billed pulses }
{
    if billed {
        totals[0] += u32::from(pulses);
    } else {
        totals[1] += u32::from(pulses);
    }
}
