// One contact's update over its words in the lent graph. From `update_contacts` of avian's narrow_phase/system_param.rs.
#![tactic(auto)]

pub mod contact;
pub mod input;
pub mod record;
pub mod recycled;
pub mod renewal;
