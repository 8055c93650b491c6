// The tracestate header, read as the W3C Trace Context Recommendation, Level 1, defines it, with the exceptions of docs/HEADERS.md.
#![tactic(auto)]

pub mod items;
pub mod laws;
pub mod member;
pub mod read;
