// The draws that the calls are made of: by a key and the choice's number.
use case_draws::draws::{pick, seeded};
use case_draws::numbers::MOST_CONTACTS;
use contact_graph::call::Request;
use contact_types::contact_id::ContactId;
use layout::limits::{BODIES, COLLIDERS};
use math::bits::float_of;

// 0, 1, -0, 0.1, a NaN that is not the one written, infinite.
const DISTANCES: [u32; 6] = [
    0x0000_0000,
    0x3f80_0000,
    0x8000_0000,
    0x3dcc_cccd,
    0xff80_0001,
    0x7f80_0000,
];

const SEED: u32 = 20261;

pub fn draw(key: u32, slot: u32) -> u32 {
    seeded(SEED, key, slot)
}

// One of six colliders, at times one out of range.
fn collider(key: u32, slot: u32) -> u32 {
    let d = draw(key, slot);
    if d % 64 == 0 {
        COLLIDERS + d / 64 % 3
    } else {
        d / 64 % 6 * 51
    }
}

// A mark, at times 2.
fn mark(key: u32, slot: u32) -> u32 {
    let d = draw(key, slot);
    if d % 64 == 0 { 2 } else { d / 64 % 2 }
}

// At times out of range, which is no fault behind a mark of 0.
fn body(key: u32, slot: u32) -> u32 {
    let d = draw(key, slot);
    if d % 16 == 0 {
        BODIES + d / 16 % 5000
    } else {
        d / 16 % BODIES
    }
}

pub fn request(key: u32) -> Request {
    Request {
        collider1: collider(key, 1),
        collider2: collider(key, 2),
        has_body1: mark(key, 3),
        body1: body(key, 4),
        has_body2: mark(key, 5),
        body2: body(key, 6),
        contact_events: mark(key, 7),
        modify_contacts: mark(key, 8),
        speculative_distance: float_of(pick(&DISTANCES, draw(key, 9))),
    }
}

// An id of the ten lowest, at times one far above or none.
pub fn id(key: u32) -> u32 {
    let d = draw(key, 1);
    match d % 32 {
        0 => ContactId::PLACEHOLDER.0,
        1 => MOST_CONTACTS + d / 32 % 9,
        _ => d / 32 % 10,
    }
}
