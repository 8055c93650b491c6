// A tracestate list, written.
#![tactic(auto)]

mod choose;
pub mod laws;
pub mod write;
mod writer;
