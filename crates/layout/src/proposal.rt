// A contact's proposal, a proposed manifold and a proposed point.
use crate::limits::{MANIFOLDS, PROPOSED_POINTS};

pub const PROPOSED_POINT_ANCHOR1: usize = 0;

pub const PROPOSED_POINT_ANCHOR2: usize = 3;

pub const PROPOSED_POINT_POSITION: usize = 6;

pub const PROPOSED_POINT_PENETRATION: usize = 9;

// Features 1 and 2.
pub const PROPOSED_POINT_FEATURES: usize = 10;

pub const PROPOSED_POINT_FEATURE2: usize = PROPOSED_POINT_FEATURES + 1;

pub const PROPOSED_POINT_SIZE: usize = 12;

// How many points it has.
pub const PROPOSED_MANIFOLD_COUNT: usize = 0;

pub const PROPOSED_MANIFOLD_NORMAL: usize = 1;

pub const PROPOSED_MANIFOLD_POINTS: usize = 4;

// The words of a proposed manifold's points.
pub const PROPOSED_POINTS_SIZE: usize = PROPOSED_POINTS * PROPOSED_POINT_SIZE;

pub const PROPOSED_MANIFOLD_SIZE: usize = PROPOSED_MANIFOLD_POINTS + PROPOSED_POINTS_SIZE;

// The hook's answer.
pub const PROPOSAL_HOOK: usize = 0;

// How many manifolds it has.
pub const PROPOSAL_COUNT: usize = 1;

pub const PROPOSAL_MANIFOLDS: usize = 2;

pub const PROPOSAL_SIZE: usize = PROPOSAL_MANIFOLDS + MANIFOLDS * PROPOSED_MANIFOLD_SIZE;
