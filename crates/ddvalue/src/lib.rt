// The dd value of a context, written: its definition and laws, no code yet.
#![tactic(auto)]

pub mod laws;
