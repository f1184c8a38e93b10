// A constraint change's record.

pub const CHANGE_KIND: usize = 0;

pub const CHANGE_CONTACT: usize = 1;

pub const CHANGE_BODY1: usize = 2;

pub const CHANGE_BODY2: usize = 3;

pub const CHANGE_COUNT: usize = 4;

pub const CHANGE_SIZE: usize = 5;
