// An addition's request from C.

pub const REQUEST_COLLIDER1: usize = 0;

pub const REQUEST_COLLIDER2: usize = 1;

// Mark and number.
pub const REQUEST_BODY1: usize = 2;

pub const REQUEST_BODY1_NUMBER: usize = REQUEST_BODY1 + 1;

pub const REQUEST_BODY2: usize = 4;

pub const REQUEST_BODY2_NUMBER: usize = REQUEST_BODY2 + 1;

pub const REQUEST_CONTACT_EVENTS: usize = 6;

pub const REQUEST_MODIFY_CONTACTS: usize = 7;

pub const REQUEST_SPECULATIVE_DISTANCE: usize = 8;

pub const REQUEST_LENGTH: usize = 9;
