// A contact's record: the Rust's `ContactEdge` and `ContactPair` together. The place of an optional value is that of its mark.
use crate::manifold::MANIFOLDS_SIZE;

pub const CONTACT_COLLIDER1: usize = 0;

pub const CONTACT_COLLIDER2: usize = 1;

// Mark and number.
pub const CONTACT_BODY1: usize = 2;

pub const CONTACT_BODY1_NUMBER: usize = CONTACT_BODY1 + 1;

pub const CONTACT_BODY2: usize = 4;

pub const CONTACT_BODY2_NUMBER: usize = CONTACT_BODY2 + 1;

pub const CONTACT_PAIR_INDEX: usize = 6;

// The edge's marks: `ContactEdgeFlags`.
pub const CONTACT_EDGE_FLAGS: usize = 7;

pub const EDGE_TOUCHING: usize = CONTACT_EDGE_FLAGS;

pub const EDGE_CONTACT_EVENTS: usize = CONTACT_EDGE_FLAGS + 1;

// The pair's marks: `ContactPairFlags`.
pub const CONTACT_FLAGS: usize = 9;

pub const PAIR_TOUCHING: usize = CONTACT_FLAGS;

pub const PAIR_DISJOINT_AABB: usize = CONTACT_FLAGS + 1;

pub const PAIR_STARTED_TOUCHING: usize = CONTACT_FLAGS + 2;

pub const PAIR_STOPPED_TOUCHING: usize = CONTACT_FLAGS + 3;

pub const PAIR_GENERATE_CONSTRAINTS: usize = CONTACT_FLAGS + 4;

pub const PAIR_STARTED_GENERATING_CONSTRAINTS: usize = CONTACT_FLAGS + 5;

pub const PAIR_STATIC1: usize = CONTACT_FLAGS + 6;

pub const PAIR_STATIC2: usize = CONTACT_FLAGS + 7;

pub const PAIR_MODIFY_CONTACTS: usize = CONTACT_FLAGS + 8;

// How many marks the pair has, and the two together.
pub const FLAGS_SIZE: usize = 9;

pub const MARKS_SIZE: usize = 2 + FLAGS_SIZE;

pub const CONTACT_COUNT_CHANGE: usize = 18;

pub const CONTACT_SPECULATIVE_DISTANCE: usize = 19;

// The recycling cache: mark, rotations 1 and 2, relative translation and rotation.
pub const CONTACT_CACHE: usize = 20;

// Counted from its mark.
pub const CACHE_ROTATION1: usize = 1;

pub const CACHE_ROTATION2: usize = 5;

pub const CACHE_RELATIVE_TRANSLATION: usize = 9;

pub const CACHE_RELATIVE_ROTATION: usize = 12;

pub const CACHE_SIZE: usize = 16;

// The number of manifolds, then the manifolds.
pub const CONTACT_MANIFOLDS: usize = 36;

pub const CONTACT_FIRST_MANIFOLD: usize = CONTACT_MANIFOLDS + 1;

pub const CONTACT_SIZE: usize = CONTACT_MANIFOLDS + MANIFOLDS_SIZE;
