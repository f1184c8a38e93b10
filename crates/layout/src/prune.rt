// What pruning reads of a point, and the row of points that it is lent.
use crate::limits::PROPOSED_POINTS;

pub const PRUNE_POINT_ANCHOR1: usize = 0;

pub const PRUNE_POINT_PENETRATION: usize = 3;

pub const PRUNE_POINT_SIZE: usize = 4;

pub const PRUNE_POINTS_LENGTH: usize = PROPOSED_POINTS * PRUNE_POINT_SIZE;
