// What `compile` and `show` decide on slices: the file of a text, or the line of its refusal; the text of a file.
#![tactic(auto)]

pub mod to_file;
pub mod to_text;
