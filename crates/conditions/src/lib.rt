// What a rule asks of signals, read word by word.
#![tactic(auto)]

pub mod conditions;
pub mod steps;
