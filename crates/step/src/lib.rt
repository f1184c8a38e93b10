// A step: every contact updated once, then the status pass. From `NarrowPhase::update` of avian's narrow_phase/system_param.rs.
#![tactic(auto)]

pub mod answer;
pub mod input;
pub mod lengths;
pub mod numbers;
pub mod step;
