// A relay: a context that goes from leg to leg over a carrier, in both forms. Its calls and answers as values; of what they do the
// definitions, no code yet.
#![tactic(auto)]

pub mod calls;
