// What a step is given by the lines of a stretch of text, in lent rows.
#![tactic(auto)]

pub mod active;
pub mod proposal;
pub mod records;
mod row;
pub mod stretch;
pub mod worker;
