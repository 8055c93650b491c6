// Numbers as text: readers that refuse with `None`, and writers that need no memory but their own.
#![tactic(auto)]

pub mod laws;
pub mod read;
pub mod write;
