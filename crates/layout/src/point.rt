// A stored point's record.

pub const POINT_ANCHOR1: usize = 0;

pub const POINT_ANCHOR2: usize = 3;

pub const POINT_POSITION: usize = 6;

pub const POINT_PENETRATION: usize = 9;

pub const POINT_BASE_PENETRATION: usize = 10;

pub const POINT_NORMAL_IMPULSE: usize = 11;

pub const POINT_NORMAL_SPEED: usize = 12;

pub const POINT_WARM_START_NORMAL_IMPULSE: usize = 13;

pub const POINT_WARM_START_TANGENT_IMPULSE: usize = 14;

pub const POINT_WARM_START_TANGENT_IMPULSE_Y: usize = POINT_WARM_START_TANGENT_IMPULSE + 1;

// Features 1 and 2.
pub const POINT_FEATURES: usize = 16;

pub const POINT_FEATURE2: usize = POINT_FEATURES + 1;

pub const POINT_SIZE: usize = 18;
