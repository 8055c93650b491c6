// A layer over any carrier: each name stands below it under a prefix.
#![tactic(auto)]

pub mod laws;
pub mod layer;
pub mod prefixes;
