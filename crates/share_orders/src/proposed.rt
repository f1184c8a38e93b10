// The proposals of the listed contacts. At times one is overfull, so that the step is refused.
use crate::draws::{draw, float};
use case_draws::draws::{all_but_one_in, past, pick, slot};
use case_draws::graph::listed_ids;
use case_draws::numbers::{
    MANIFOLDS, PROPOSAL_COUNT, PROPOSAL_HOOK, PROPOSAL_MANIFOLDS, PROPOSAL_SIZE,
    PROPOSED_MANIFOLD_COUNT, PROPOSED_MANIFOLD_NORMAL, PROPOSED_MANIFOLD_POINTS,
    PROPOSED_MANIFOLD_SIZE, PROPOSED_POINT_FEATURE2, PROPOSED_POINT_FEATURES,
    PROPOSED_POINT_PENETRATION, PROPOSED_POINT_SIZE, PROPOSED_POINTS,
};
use case_draws::places::fill_nth;

// Along z, along y, between x and z, along -y.
const NORMALS: [[u32; 3]; 4] = [
    [0, 0, 0x3f80_0000],
    [0, 0x3f80_0000, 0],
    [0x3f19_999a, 0, 0x3f4c_cccd],
    [0, 0xbf80_0000, 0],
];

// 0.01, 0.1, 0, -0.004, -0.05, -0.5, 0.5, NaN.
const PENETRATIONS: [u32; 8] = [
    0x3c23_d70a,
    0x3dcc_cccd,
    0x0000_0000,
    0xbb83_126f,
    0xbd4c_cccd,
    0xbf00_0000,
    0x3f00_0000,
    0x7fc0_0000,
];

// A feature is at times unknown.
fn point_word(key: u32, j: u32) -> u32 {
    match j {
        PROPOSED_POINT_PENETRATION => pick(&PENETRATIONS, draw(key, j)),
        PROPOSED_POINT_FEATURES | PROPOSED_POINT_FEATURE2 => draw(key, j) / 8 % 6,
        _ => float(key, j),
    }
}

// 0 to 7, so that some are pruned; at times the most.
fn point_count(key: u32) -> u32 {
    let d = draw(key, PROPOSED_MANIFOLD_COUNT);
    if d % 16 == 0 {
        PROPOSED_POINTS
    } else {
        d / 16 % 8
    }
}

fn normal_word(key: u32, axis: u32) -> u32 {
    pick(&pick(&NORMALS, draw(key, PROPOSED_MANIFOLD_NORMAL)), axis)
}

fn manifold_word(key: u32, i: u32) -> u32 {
    let k = past(i, PROPOSED_MANIFOLD_POINTS);
    match i {
        PROPOSED_MANIFOLD_COUNT => point_count(key),
        PROPOSED_MANIFOLD_NORMAL..PROPOSED_MANIFOLD_POINTS => normal_word(
            key,
            past(i, PROPOSED_MANIFOLD_NORMAL),
        ),
        _ => point_word(
            draw(key, slot(100, k / PROPOSED_POINT_SIZE)),
            k % PROPOSED_POINT_SIZE,
        ),
    }
}

const TOO_MANY_MANIFOLDS: u32 = MANIFOLDS + 1;

// 0 to 3; at times 5, and too many in one of 64.
fn manifold_count(key: u32) -> u32 {
    let d = draw(key, PROPOSAL_COUNT);
    match d % 64 {
        0 => TOO_MANY_MANIFOLDS,
        1..=8 => 5,
        _ => d / 64 % 4,
    }
}

fn proposal_word(key: u32, i: u32) -> u32 {
    let k = past(i, PROPOSAL_MANIFOLDS);
    match i {
        PROPOSAL_HOOK => all_but_one_in(draw(key, i), 4),
        PROPOSAL_COUNT => manifold_count(key),
        _ => manifold_word(
            draw(key, slot(100, k / PROPOSED_MANIFOLD_SIZE)),
            k % PROPOSED_MANIFOLD_SIZE,
        ),
    }
}

// One in two keeps what was proposed to it before.
pub fn fill_proposals(proposals: &mut [u32], graph: &[u32], key: u32) {
    for &id in listed_ids(graph) {
        let own = draw(key, slot(300, id));
        if own % 2 == 0 {
            fill_nth(proposals, id, PROPOSAL_SIZE, |i| proposal_word(own, i));
        }
    }
}
