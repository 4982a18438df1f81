// Sets of values below sixteen, and the value of a set that is nearest to a wanted one. A bit a value: what they are stands in specs/.
#![tactic(auto)]

mod chooser;
mod sets;
mod table;

pub use chooser::{nearest, standing};
pub use sets::{all_below, gather, is_left, nothing_left, outs, room, take};
