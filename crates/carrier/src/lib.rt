// What a carrier of headers is: two interfaces, and the kind by which each implementation gives them a meaning.
#![tactic(auto)]

pub mod faults;
pub mod laws;
pub mod names;
pub mod traits;
