// The stored cases, read from the bytes of a file: the numbers, strings and lists of each record, and the tally of what came out different.
#![tactic(auto)]

pub mod expected;
pub mod given;
pub mod lists;
pub mod numbers;
pub mod parts;
pub mod strings;
pub mod tally;
