// Settings, colliders and bodies in lent rows of words. From avian's collider/layers.rs, collider/mod.rs, collider_hierarchy/mod.rs and rigid_body/mod.rs.
#![tactic(auto)]

pub mod aabb;
pub mod body_record;
pub mod coefficient;
pub mod collider_record;
pub mod layers;
pub mod overlap;
pub mod range;
pub mod settings;
pub mod side;
pub mod surface;
