// One tick: the nearest values that lead on are chosen, the input first.
#![tactic(auto)]

mod arrive;
mod choose;
pub mod tick;

pub use arrive::output_arrival;
pub use choose::choose_input;
pub use tick::output_tick;
