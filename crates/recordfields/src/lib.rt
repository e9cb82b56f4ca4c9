// A record's value as 24 numbers, and back.
#![tactic(auto)]

pub mod meant;
pub mod numbers;
