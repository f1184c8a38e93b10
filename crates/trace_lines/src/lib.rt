// A trace's lines, read by their place: docs/TRACES.md, 'Lines'.
#![tactic(auto)]

mod fields;
mod items;
pub mod line;
pub mod line_kind;
mod shapes;
