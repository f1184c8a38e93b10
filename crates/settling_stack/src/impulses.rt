// The impulses that a solver writes into the stored points between two steps: made up, from 0.5 to 1.
use case_draws::draws::slot;
use case_draws::graph::{listed, listed_id, record_place};
use case_draws::numbers::{
    CONTACT_FIRST_MANIFOLD, IMPULSES, MANIFOLD_POINTS, POINT_SIZE, STORED_POINTS,
};
use case_draws::places::{nth_place, put};

fn impulse(step: u32, id: u32, point: u32, k: u32) -> u32 {
    let a = step
        .wrapping_mul(7919)
        .wrapping_add(id.wrapping_mul(104729));
    let b = a
        .wrapping_add(point.wrapping_mul(1299709))
        .wrapping_add(k.wrapping_mul(15485863));
    0x3f00_0000 + b % 8388608
}

// The first point of the manifold there is.
const FIRST_POINT: u32 = CONTACT_FIRST_MANIFOLD + MANIFOLD_POINTS;

fn write_point(graph: &mut [u32], id: u32, p: u32, step: u32) {
    let at = slot(
        record_place(graph, id),
        nth_place(p, POINT_SIZE, FIRST_POINT),
    );
    for k in IMPULSES {
        put(graph, slot(at, k), impulse(step, id, p, k));
    }
}

// By index, since the graph that lists the ids is written meanwhile.
pub fn write_impulses(graph: &mut [u32], step: u32) {
    for p in 0..listed(graph) {
        let id = listed_id(graph, p);
        for point in 0..STORED_POINTS {
            write_point(graph, id, point, step);
        }
    }
}
