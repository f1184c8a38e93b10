// The places and sizes of every record in a lent row, and the limits: a module for each record. specs/ has the same names for the definitions, docs/BUFFERS.md the tables.
#![tactic(auto)]

pub mod bits;
pub mod body;
pub mod change;
pub mod collider;
pub mod contact;
pub mod event;
pub mod graph;
pub mod limits;
pub mod manifold;
pub mod point;
pub mod proposal;
pub mod prune;
pub mod request;
pub mod settings;
pub mod shares;
