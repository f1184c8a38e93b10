// The limits of the specification, in one place. specs/Limits.antt of `rules` has the same for the definitions.

// Contacts of a graph, at most.
pub const MOST_CONTACTS: usize = 256;

// Collider and body numbers are below these.
pub const COLLIDERS: u32 = 256;

pub const BODIES: u32 = 128;

// Manifolds of a pair.
pub const MANIFOLDS: usize = 6;

// Points of a stored manifold.
pub const STORED_POINTS: usize = 4;

// Points of a proposed manifold.
pub const PROPOSED_POINTS: usize = 24;

// Workers of a step, at most.
pub const MOST_WORKERS: usize = 8;
