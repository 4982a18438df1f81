// The lines that declare signals, clocks and locations, and what they have said so far.
#![tactic(auto)]

pub mod clockline;
mod fresh;
mod letters;
pub mod placeline;
pub mod signalline;
pub mod table;
