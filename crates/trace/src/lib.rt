// What identifies a trace, and how it was sampled.
#![tactic(auto)]

pub mod ids;
pub mod mechanism;
pub mod priority;
