// The Datadog form, read: definitions, no code yet.
#![tactic(auto)]
