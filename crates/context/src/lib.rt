// What a job knows of its trace: ids, sampling, and tags with origin and ot value in a store.
#![tactic(auto)]

pub mod sampling;
pub mod span_context;
pub mod view;
