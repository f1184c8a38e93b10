// What the test programs share: the layout's numbers, words of a row, hashes, parts of a line, and how those that are compared with
// avian's Rust draw their cases (tests/reference has the same draws).
#![tactic(auto)]

pub mod bodies;
pub mod colliders;
pub mod draws;
pub mod graph;
pub mod hash;
pub mod line;
pub mod manifolds;
pub mod numbers;
pub mod places;
pub mod settings;
pub mod speculative;
