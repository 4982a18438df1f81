// Where the rules and the names of a policy's text stand in it, for tools.
#![tactic(auto)]

mod nameat;
mod ruleat;

pub use nameat::{Name, name_of_clock, name_of_location, name_of_signal};
pub use ruleat::line_of_rule;
