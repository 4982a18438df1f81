// Where the rules of a state's location lead: which events take it to a marked state.
#![tactic(auto)]

mod lead;
mod pass;
mod reach;
mod share;
mod start;

pub use lead::{held, lead_of, next_of};
pub use pass::{allowed, goes_on, may_stand, row};
pub use reach::{input_reaches, reaches, values};
pub use share::{Share, part_of, take_by, way_by};
pub use start::{all_left, inputs_of, outputs_of};
