// Several bays over one policy and one set of marks, their states in one list. What the entries answer stands in specs/.
#![tactic(auto)]

mod bays;
mod odd;

pub use bays::{bay_input, bay_output, bays_new};
pub use odd::odd_refusal;
