// The text that `prunelist` reads, and the lines that it writes: the specification, 'Prune listing'.
#![tactic(auto)]

mod fields;
mod lines;
pub mod reader;
pub mod writer;
