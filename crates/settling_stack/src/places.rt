// The lengths of the lent rows, and the places of the bodies' words.
use case_draws::draws::slot;
use case_draws::numbers::{
    BODY_POSITION, BODY_SIZE, CHANGE_SIZE, EVENT_SIZE, GRAPH_CONTACT_SIZE, GRAPH_LIST,
    MOST_WORKERS, PROPOSAL_SIZE, SHARES_ENTRIES,
};
use case_draws::places::{nth_place, put, word};
use math::bits::{bits_of, float_of};

pub const CAPACITY: u32 = 64;

// The floor and the boxes, and the number of the uppermost.
pub const BOXES: u32 = 9;

pub const UPPERMOST: u32 = BOXES - 1;

// What the capacity asks for. Of bits there is a word for each worker.
pub const GRAPH_LENGTH: usize = (GRAPH_LIST + GRAPH_CONTACT_SIZE * CAPACITY) as usize;

pub const PROPOSALS_LENGTH: usize = (PROPOSAL_SIZE * CAPACITY) as usize;

pub const SHARES_LENGTH: usize = (SHARES_ENTRIES + CAPACITY) as usize;

pub const BITS_LENGTH: usize = MOST_WORKERS as usize;

pub const EVENTS_LENGTH: usize = (EVENT_SIZE * CAPACITY) as usize;

pub const CHANGES_LENGTH: usize = (CHANGE_SIZE * CAPACITY) as usize;

pub const DISTANCES_LENGTH: usize = CAPACITY as usize;

// Word i of body n.
pub fn body_at(n: u32, i: u32) -> u32 {
    nth_place(n, BODY_SIZE, i)
}

// The position of body n along an axis.
pub fn position(bodies: &[u32], n: u32, axis: u32) -> f32 {
    float_of(word(bodies, body_at(n, slot(BODY_POSITION, axis))))
}

pub fn put_float(row: &mut [u32], at: u32, x: f32) {
    put(row, at, bits_of(x));
}
