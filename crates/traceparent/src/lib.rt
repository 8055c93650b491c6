// The traceparent header, read and written as the W3C Trace Context Recommendation, Level 1, defines it.
#![tactic(auto)]

pub mod laws;
pub mod read;
pub mod write;
