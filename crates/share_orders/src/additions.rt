// Pairs added before a step: eight before the first, else three. Those that stand already are refused.
use crate::draws::draw;
use crate::places::DRAWN;
use case_draws::draws::{all_but_one_in, one_in, pick, slot};
use contact_graph::add::add;
use contact_graph::call::Request;
use layout::limits::BODIES;
use math::bits::float_of;

// 0, 0.1, 1, 2.
const DISTANCES: [u32; 4] = [0x0000_0000, 0x3dcc_cccd, 0x3f80_0000, 0x4000_0000];

// How far the second collider may be past the first.
const OTHERS: u32 = DRAWN - 1;

// Two of the colliders that are drawn.
fn request(key: u32) -> Request {
    let first = draw(key, 1) % DRAWN;
    Request {
        collider1: first,
        collider2: (first + 1 + draw(key, 2) % OTHERS) % DRAWN,
        has_body1: all_but_one_in(draw(key, 3), 5),
        body1: draw(key, 4) % BODIES,
        has_body2: all_but_one_in(draw(key, 5), 5),
        body2: draw(key, 6) % BODIES,
        contact_events: all_but_one_in(draw(key, 7), 4),
        modify_contacts: one_in(draw(key, 8), 3),
        speculative_distance: float_of(pick(&DISTANCES, draw(key, 9))),
    }
}

// The answer is not looked at: a pair that stands already, and one too many, change nothing.
pub fn add_pairs(graph: &mut [u32], key: u32, count: u32) {
    for k in 0..count {
        let _ = add(graph, request(draw(key, slot(700, k))));
    }
}
