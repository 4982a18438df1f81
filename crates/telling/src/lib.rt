// What `why` decides on slices: the input of `enforce`, and its lines with a reason after each edited half.
#![tactic(auto)]

mod reply;
mod tell;

pub use reply::{TEXT, respond};
