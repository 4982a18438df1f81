// What `enforce` decides on slices: the checks on its input, in their order, and the text that it prints.
#![tactic(auto)]

mod checks;
mod reply;

pub use checks::outcome;
pub use reply::{MARKS, TEXT, respond};
