// A stored manifold's record, and a pair's manifolds: their number, then the manifolds.
use crate::limits::{MANIFOLDS, STORED_POINTS};
use crate::point::POINT_SIZE;

// How many points it has.
pub const MANIFOLD_COUNT: usize = 0;

pub const MANIFOLD_NORMAL: usize = 1;

pub const MANIFOLD_FRICTION: usize = 4;

pub const MANIFOLD_RESTITUTION: usize = 5;

pub const MANIFOLD_TANGENT_VELOCITY: usize = 6;

pub const MANIFOLD_POINTS: usize = 9;

// The words of a manifold's points.
pub const POINTS_SIZE: usize = STORED_POINTS * POINT_SIZE;

pub const MANIFOLD_SIZE: usize = MANIFOLD_POINTS + POINTS_SIZE;

// The words of all manifolds of a pair.
pub const ALL_MANIFOLDS_SIZE: usize = MANIFOLDS * MANIFOLD_SIZE;

// A pair's manifolds: their number, then the manifolds.
pub const MANIFOLDS_SIZE: usize = 1 + ALL_MANIFOLDS_SIZE;
