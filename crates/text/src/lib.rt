// Texts and their parts: lawful text, blanks off, pieces between separators, what is taken from the front, bytes replaced.
#![tactic(auto)]

pub mod append;
pub mod check;
pub mod inline;
pub mod laws;
pub mod pieces;
pub mod replace;
pub mod split;
pub mod take;
pub mod trim;
