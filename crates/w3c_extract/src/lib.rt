// The W3C form, read: definitions, no code yet.
#![tactic(auto)]
