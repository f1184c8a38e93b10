// An event's record.

pub const EVENT_KIND: usize = 0;

pub const EVENT_CONTACT: usize = 1;

pub const EVENT_COLLIDER1: usize = 2;

pub const EVENT_COLLIDER2: usize = 3;

pub const EVENT_BODY1: usize = 4;

pub const EVENT_BODY2: usize = 6;

pub const EVENT_SIZE: usize = 8;
