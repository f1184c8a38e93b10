// What an update makes of a pair besides its manifolds: whether its contacts are recycled, the surface and the distance that they share,
// cache and flags. From avian's narrow_phase/system_param.rs.
#![tactic(auto)]

pub mod distance;
pub mod pair;
pub mod recycling;
pub mod renewing;
pub mod surface;
