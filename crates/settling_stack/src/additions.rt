// Pairs of neighbours: all at the start, and then each that is near. One that stands already is refused.
use crate::places::{UPPERMOST, position};
use case_draws::draws::slot;
use contact_graph::add::add;
use contact_graph::call::Request;

// Box n and what lies below it. Every third has no events, every fourth asks the hook, every second has a speculative distance.
fn request(below: u32) -> Request {
    let n = slot(below, 1);
    Request {
        collider1: below,
        collider2: n,
        has_body1: 1,
        body1: below,
        has_body2: 1,
        body2: n,
        contact_events: u32::from(n % 3 != 0),
        modify_contacts: u32::from(n % 4 == 0),
        speculative_distance: if n % 2 == 0 { 0.05 } else { 0.0 },
    }
}

// The gap to the box above is small; at the start all are taken as near.
fn near(bodies: &[u32], below: u32, step: u32) -> bool {
    if step == 0 {
        return true;
    }
    let top = position(bodies, below, 1) + 0.5;
    (position(bodies, slot(below, 1), 1) - 0.5) - top < 0.09
}

// The answer is not looked at.
pub fn add_near(graph: &mut [u32], bodies: &[u32], step: u32) {
    for below in 0..UPPERMOST {
        if near(bodies, below, step) {
            let _ = add(graph, request(below));
        }
    }
}
