// What an addition asks for.
use crate::choices::{below, choice};
use case_draws::draws::{past, slot};
use case_draws::speculative::speculative_word;
use contact_graph::call::Request;
use layout::limits::{BODIES, COLLIDERS};
use math::bits::float_of;

// The last two are absent.
const ABSENT1: u32 = COLLIDERS - 2;

const ABSENT2: u32 = COLLIDERS - 1;

// At times one that is absent.
fn collider1(call: u32, colliders: u32) -> u32 {
    let d = choice(call, 70);
    if d % 40 == 0 {
        ABSENT1
    } else {
        below(d / 40, colliders)
    }
}

// At times one that is absent, or the first one again.
fn collider2(call: u32, colliders: u32, first: u32) -> u32 {
    let d = choice(call, 71);
    match d % 40 {
        0 => ABSENT2,
        1..=3 => first,
        _ => below(
            slot(slot(first, 1), below(d / 40, past(colliders, 1))),
            colliders,
        ),
    }
}

// 0 in one of three.
fn mark(call: u32, slot: u32) -> u32 {
    u32::from(choice(call, slot) % 3 != 0)
}

// Behind a mark of 0 any word.
fn body(call: u32, slot: u32, mark: u32) -> u32 {
    let d = choice(call, slot);
    if mark == 1 { d % BODIES } else { d }
}

pub fn request(call: u32, colliders: u32) -> Request {
    let first = collider1(call, colliders);
    let has_body1 = mark(call, 72);
    let has_body2 = mark(call, 74);
    Request {
        collider1: first,
        collider2: collider2(call, colliders, first),
        has_body1,
        body1: body(call, 73, has_body1),
        has_body2,
        body2: body(call, 75, has_body2),
        contact_events: mark(call, 76),
        modify_contacts: past(1, mark(call, 77)),
        speculative_distance: float_of(speculative_word(choice(call, 78))),
    }
}
