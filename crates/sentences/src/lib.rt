// A reason as a line of text.
#![tactic(auto)]

mod asked;
mod lines;

pub use lines::put_reasons;
