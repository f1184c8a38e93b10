// Points and manifolds in a lent row of words: the points loaded into structs by value, and stored.
#![tactic(auto)]

pub mod point;
pub mod zeros;
