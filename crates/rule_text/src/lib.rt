// The line of a rule as text, and the numbers and names in it.
#![tactic(auto)]

mod limits;
mod rule;
mod signals;

pub use limits::{put_named, put_number};
pub use rule::{put_at, put_rule};
