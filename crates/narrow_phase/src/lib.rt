// The new manifolds of one contact's full update, made in its words. From `update_contacts` of avian's narrow_phase/system_param.rs.
#![tactic(auto)]

pub mod manifold;
