// Numbers and parts laid into the bytes of a policy.
#![tactic(auto)]

pub mod lay;
