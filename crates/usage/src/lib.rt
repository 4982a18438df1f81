// What of a policy is of use: a flag for each rule and each location.
#![tactic(auto)]

mod asked;
pub mod enter;
mod flags;
mod uses;

pub use flags::{rank, renumber};
pub use uses::use_rules;
