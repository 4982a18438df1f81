// A stream drawn as the text of a Value Change Dump.
#![tactic(auto)]

mod lengths;
mod lines;
mod text;

pub use lengths::text_length;
pub use lines::put_opening;
pub use text::put_text;
