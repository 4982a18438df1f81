// All words of one rule: read, held against the ceilings, stored as the bytes of a file.
#![tactic(auto)]

pub mod arms;
pub mod chosen;
pub mod ended;
pub mod stored;
pub mod told;
pub mod ways;
