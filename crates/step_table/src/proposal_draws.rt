// The proposals of a step: new ones for the listed pairs, at times one with a count over its limit.
use crate::choices::{below, choice, over};
use crate::graph::inactive_id;
use case_draws::draws::slot;
use case_draws::graph::{listed, listed_id, listed_ids};
use case_draws::manifolds::fill_proposal;
use case_draws::numbers::{
    GRAPH_CAPACITY, MANIFOLDS, PROPOSAL_COUNT, PROPOSAL_MANIFOLDS, PROPOSAL_SIZE,
    PROPOSED_MANIFOLD_COUNT, PROPOSED_MANIFOLD_SIZE, PROPOSED_POINTS,
};
use case_draws::places::{nth_place, put, word};

// The i-th word of an id's proposal.
fn place(id: u32, i: u32) -> u32 {
    nth_place(id, PROPOSAL_SIZE, i)
}

fn fill_listed(proposals: &mut [u32], graph: &[u32], call: u32) {
    for &id in listed_ids(graph) {
        fill_proposal(proposals, id, choice(call, slot(300, id)));
    }
}

// In a proposal, the number of points of one of its manifolds.
const FIRST_COUNT: u32 = PROPOSAL_MANIFOLDS + PROPOSED_MANIFOLD_COUNT;

fn count_place(d: u32) -> u32 {
    FIRST_COUNT + PROPOSED_MANIFOLD_SIZE * (d % MANIFOLDS)
}

// The manifolds of a listed pair, the points of one of its manifolds, the manifolds of an id that is not listed.
fn overfill(proposals: &mut [u32], graph: &[u32], call: u32) {
    let d = choice(call, 64);
    let e = choice(call, 65);
    let count = listed(graph);
    let id = listed_id(graph, below(e, count));
    let other = inactive_id(graph, call);
    match d % 24 {
        0 if 0 < count => put(
            proposals,
            place(id, PROPOSAL_COUNT),
            over(MANIFOLDS, d / 24),
        ),
        1 if 0 < count => put(
            proposals,
            place(id, count_place(e / 64)),
            over(PROPOSED_POINTS, d / 24),
        ),
        2 if other < word(graph, GRAPH_CAPACITY) => put(
            proposals,
            place(other, PROPOSAL_COUNT),
            over(MANIFOLDS, d / 24),
        ),
        _ => {}
    }
}

pub fn fill_proposals(proposals: &mut [u32], graph: &[u32], call: u32) {
    fill_listed(proposals, graph, call);
    overfill(proposals, graph, call);
}
