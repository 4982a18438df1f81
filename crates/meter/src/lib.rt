// A meter on top of a station: the pulses of each tick, billed or not. What the entries answer stands in specs/.
#![tactic(auto)]

mod meter;
mod signals;
mod station;

pub use meter::{meter_input, meter_new, meter_output};
