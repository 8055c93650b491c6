// What both forms share: a store filled change by change, headers set and unset, and how an extract ends.
#![tactic(auto)]

pub mod filling;
pub mod headers;
pub mod laws;
