// A body's record. The place of an optional value is that of its mark.
use crate::limits::BODIES;

pub const BODY_PRESENT: usize = 0;

pub const BODY_STATIC: usize = 1;

// Position and rotation stand side by side: the pose.
pub const BODY_POSITION: usize = 2;

pub const BODY_ROTATION: usize = 5;

pub const BODY_CENTER_OF_MASS: usize = 9;

pub const BODY_LINEAR_VELOCITY: usize = 12;

pub const BODY_ANGULAR_VELOCITY: usize = 15;

// Mark, coefficient, rule.
pub const BODY_FRICTION: usize = 18;

pub const BODY_MARGIN: usize = 21;

pub const BODY_SPECULATIVE_MAXIMUM: usize = 23;

pub const BODY_SWEEP_RADIUS: usize = 25;

pub const BODY_SIZE: usize = 26;

pub const BODIES_LENGTH: usize = BODIES as usize * BODY_SIZE;
