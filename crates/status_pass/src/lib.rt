// The status pass over the contacts whose status bit is set. From `NarrowPhase::update` of avian's narrow_phase/system_param.rs.
#![tactic(auto)]

pub mod changes;
pub mod events;
pub mod pass;
pub mod settle;
pub mod verdict;
pub mod visit;
