// A policy's text compiled into its file.
#![tactic(auto)]

mod counts;
mod line;
pub mod lines;
pub mod reader;
pub mod refused;
mod ruleline;

pub use reader::compile;
pub use refused::LineRefusal;
