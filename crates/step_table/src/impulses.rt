// The impulses that a solver writes between steps, in every point of the listed pairs.
use crate::choices::choice;
use case_draws::draws::{draw, float, one_in, slot, style};
use case_draws::graph::{listed, listed_id, record_place};
use case_draws::numbers::{
    CONTACT_FIRST_MANIFOLD, CONTACT_MANIFOLDS, IMPULSES, MANIFOLD_POINTS, MANIFOLD_SIZE, POINT_SIZE,
};
use case_draws::places::{put, word};

// At places of the record, which begins at `from`: half of them are written.
fn write_point(graph: &mut [u32], from: u32, point: u32, owner: u32) {
    for k in IMPULSES {
        let place = slot(point, k);
        if one_in(draw(owner, place), 2) == 1 {
            put(
                graph,
                slot(from, place),
                float(owner, slot(600, place), style(owner)),
            );
        }
    }
}

fn write_manifold(graph: &mut [u32], from: u32, manifold: u32, owner: u32) {
    let points = slot(manifold, MANIFOLD_POINTS);
    for q in 0..word(graph, slot(from, manifold)) {
        write_point(graph, from, slot(points, POINT_SIZE.wrapping_mul(q)), owner);
    }
}

fn write_record(graph: &mut [u32], from: u32, owner: u32) {
    for m in 0..word(graph, slot(from, CONTACT_MANIFOLDS)) {
        let manifold = slot(CONTACT_FIRST_MANIFOLD, MANIFOLD_SIZE.wrapping_mul(m));
        write_manifold(graph, from, manifold, owner);
    }
}

// By index, since the graph that lists the ids is written meanwhile.
pub fn write_impulses(graph: &mut [u32], call: u32) {
    for q in 0..listed(graph) {
        let id = listed_id(graph, q);
        let from = record_place(graph, id);
        write_record(graph, from, choice(call, slot(300, id)));
    }
}
