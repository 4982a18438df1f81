// The reason for each half of one event, by its rule and by the counts.
#![tactic(auto)]

pub mod halves;
mod reason;
mod tell;

pub use halves::reasons;
pub use reason::{Reason, Reasons, kind, number};
