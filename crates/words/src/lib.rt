// Lines, words, names and numbers, found in a policy's text.
#![tactic(auto)]

pub mod firsts;
pub mod keywords;
pub mod names;
pub mod numbers;
pub mod words;
