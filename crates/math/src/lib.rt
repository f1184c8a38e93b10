// The float leaves: 32-bit floats by value, each operation rounded once in the written order.
// From avian's math/mod.rs and physics_transform/transform.rs; glam's functions by glam's names.
#![tactic(auto)]

pub mod bits;
pub mod choose;
pub mod constants;
pub mod mat;
pub mod pose;
pub mod quat;
pub mod root;
pub mod vec;
