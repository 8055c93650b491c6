// A carrier that owns its memory: sixteen slots, each for one name and a value of at most 1,024 bytes.
#![tactic(auto)]

pub mod laws;
mod slot;
pub mod table;
