// The stream that the text of a Value Change Dump shows, traced back line by line.
#![tactic(auto)]

mod next;
mod read;
mod store;
mod stream;

pub use stream::{ones, read_stream};
