// The contact graph in a lent row of words. From avian's contact_types/contact_graph.rs and data_structures/graph.rs.
#![tactic(auto)]

pub mod add;
pub mod call;
pub mod lay_out;
pub mod look_up;
pub mod remove;
