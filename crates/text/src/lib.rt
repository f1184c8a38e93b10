// Words and numbers of a text, read and written by their place.
#![tactic(auto)]

pub mod reader;
pub mod writer;
