// Every contact is updated once, by the workers in turn. From `update_contacts` of avian's narrow_phase/system_param.rs.
#![tactic(auto)]

pub mod all;
pub mod share;
pub mod standing;
