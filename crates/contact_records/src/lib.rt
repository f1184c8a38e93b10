// A contact's record in a lent row of words, besides its manifolds: loaded into structs by value, and stored.
#![tactic(auto)]

pub mod state;
