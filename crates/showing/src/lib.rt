// A policy file shown as text.
#![tactic(auto)]

mod declared;
mod lines;
mod writer;

pub use writer::show;
