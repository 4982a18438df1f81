// Why a half of an event was edited.
#![tactic(auto)]

mod entry;
mod runs;
mod tables;
mod words;

pub use entry::why;
pub use runs::{room_for, shortest, why_run};
pub use words::word;
