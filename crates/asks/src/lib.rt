// What a rule asks, in words, written into a text. What the words are stands in specs/.
#![tactic(auto)]

mod bounds;
mod rule;
mod signals;

pub use rule::put_asks;
