// A released stream as a Value Change Dump for wave viewers, and back. What the text is, and what each entry promises, stands in specs/.
#![tactic(auto)]

mod reader;
mod tags;
mod writer;

pub use reader::take;
pub use writer::write;
