// A trace played line by line over lent rows: docs/TRACES.md.
#![tactic(auto)]

mod additions;
mod fill;
mod go;
pub mod play;
pub mod player;
