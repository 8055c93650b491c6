// The line block: headers as lines of bytes in memory, checked at opening, read and written in place.
#![tactic(auto)]

pub mod faults;
pub mod laws;
pub mod line;
mod look;
pub mod machine;
pub mod reader;
pub mod writer;
