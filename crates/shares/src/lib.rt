// The workers' shares of a step, in a lent row of words.
#![tactic(auto)]

pub mod range;
