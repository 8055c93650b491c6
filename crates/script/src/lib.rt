// Job scripts: one call a line, replayed, with what each call answered. docs/SCRIPT.md has the format.
#![tactic(auto)]

mod call;
mod choice;
mod content;
mod faults;
mod job;
mod lines;
mod quote;
mod replay;
pub mod run;
mod show;
mod words;
