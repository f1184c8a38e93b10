// A collider's record. The place of an optional value is that of its mark.
use crate::limits::COLLIDERS;

pub const COLLIDER_PRESENT: usize = 0;

pub const COLLIDER_BODY: usize = 1;

// The box's lower and upper corner.
pub const COLLIDER_LOWER: usize = 3;

pub const COLLIDER_UPPER: usize = 6;

pub const COLLIDER_POSITION: usize = 9;

pub const COLLIDER_MEMBERSHIPS: usize = 12;

pub const COLLIDER_FILTERS: usize = 13;

// Friction and restitution: mark, coefficient and rule each.
pub const COLLIDER_FRICTION: usize = 14;

pub const COLLIDER_RESTITUTION: usize = 17;

pub const COLLIDER_MARGIN: usize = 20;

pub const COLLIDER_SENSOR: usize = 22;

pub const COLLIDER_SIZE: usize = 23;

pub const COLLIDERS_LENGTH: usize = COLLIDERS as usize * COLLIDER_SIZE;
