// Words in a lent row: numbers, floats as their bits, vectors and quaternions, loaded by value and stored.
#![tactic(auto)]

pub mod load;
pub mod row;
pub mod store;
