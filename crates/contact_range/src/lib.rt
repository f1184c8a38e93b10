// The places of the contact graph's words in a lent row, and the range test of a lent graph.
#![tactic(auto)]

pub mod places;
pub mod range;
