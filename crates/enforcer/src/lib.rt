// A state, one tick and many. What they answer stands in specs/.
#![tactic(auto)]

mod halves;
mod lent;
mod runs;

pub use halves::{check_state, input_by, input_half, layout_for, output_by, output_of};
pub use lent::output_half;
pub use runs::{Ran, events_good, run};
