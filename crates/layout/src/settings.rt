// The settings' words.

pub const SETTINGS_STEP_TIME: usize = 0;

pub const SETTINGS_LENGTH_UNIT: usize = 1;

pub const SETTINGS_CONTACT_TOLERANCE: usize = 2;

pub const SETTINGS_RECYCLE_DISTANCE: usize = 3;

// The squared cosine of half the recycle angle.
pub const SETTINGS_RECYCLE_COSINE: usize = 4;

pub const SETTINGS_MATCH_CONTACTS: usize = 5;

// The defaults: coefficient and rule each.
pub const SETTINGS_FRICTION: usize = 6;

pub const SETTINGS_RESTITUTION: usize = 8;

// The matching setting: presence mark, mark.
pub const SETTINGS_MATCHING: usize = 10;

pub const SETTINGS_LENGTH: usize = 12;
