// The points that a shape proposes, moved and filtered. From `update_contacts` of avian's narrow_phase/system_param.rs.
#![tactic(auto)]

pub mod filtering;
