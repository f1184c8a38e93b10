// What a call prints, written as text: docs/TRACES.md, 'What is printed'.
#![tactic(auto)]

pub mod cells;
pub mod lines;
