// Sets of bytes: one table of 256 class masks, and a type for each set.
#![tactic(auto)]

pub mod class;
pub mod sets;
