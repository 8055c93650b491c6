// The tag store: an origin, an ot value and tags in ascending byte order of their keys, in memory that the caller hands in.
#![tactic(auto)]

pub mod faults;
mod in_use;
pub mod laws;
pub mod memory;
