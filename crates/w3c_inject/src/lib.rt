// The W3C form, written: definitions, no code yet.
#![tactic(auto)]
