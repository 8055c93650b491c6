// The Datadog form, written: the answers about its tags; of the call the definition, no code yet.
#![tactic(auto)]

pub mod answer;
