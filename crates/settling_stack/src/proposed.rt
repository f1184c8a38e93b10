// What is proposed to a listed pair: a manifold of four points where its boxes are at most 0.02 apart, at the upper box's lower
// corners, else none.
use crate::places::{BOXES, position};
use case_draws::draws::past;
use case_draws::graph::{listed_ids, record};
use case_draws::numbers::{
    CONTACT_COLLIDER1, CONTACT_COLLIDER2, PROPOSAL_COUNT, PROPOSAL_HOOK, PROPOSAL_MANIFOLDS,
    PROPOSAL_SIZE, PROPOSED_MANIFOLD_COUNT, PROPOSED_MANIFOLD_NORMAL, PROPOSED_MANIFOLD_POINTS,
    PROPOSED_POINT_ANCHOR1, PROPOSED_POINT_ANCHOR2, PROPOSED_POINT_FEATURES,
    PROPOSED_POINT_PENETRATION, PROPOSED_POINT_POSITION, PROPOSED_POINT_SIZE,
};
use case_draws::places::{fill, nth_place, word};
use math::bits::bits_of;

// The overlap of the boxes along y.
fn penetration(bodies: &[u32], below: u32, above: u32) -> f32 {
    (position(bodies, below, 1) + 0.5) - (position(bodies, above, 1) - 0.5)
}

// Corner k of the upper box, from its middle: two to a side along x, then along z.
fn corner(k: u32, axis: u32) -> f32 {
    let upper = match axis {
        0 => k % 2,
        1 => 0,
        _ => k / 2,
    };
    if upper == 0 { -0.5 } else { 0.5 }
}

fn world_corner(bodies: &[u32], above: u32, k: u32, axis: u32) -> f32 {
    position(bodies, above, axis) + corner(k, axis)
}

const CORNERS: u32 = 4;

// Numbered by box and corner.
fn feature(n: u32, k: u32) -> u32 {
    1 + n % BOXES * CORNERS + k % CORNERS
}

fn anchor1_word(bodies: &[u32], below: u32, above: u32, k: u32, axis: u32) -> u32 {
    bits_of(world_corner(bodies, above, k, axis) - position(bodies, below, axis))
}

fn point_word(bodies: &[u32], below: u32, above: u32, k: u32, j: u32) -> u32 {
    match j {
        PROPOSED_POINT_ANCHOR1..PROPOSED_POINT_ANCHOR2 => anchor1_word(
            bodies,
            below,
            above,
            k,
            past(j, PROPOSED_POINT_ANCHOR1),
        ),
        PROPOSED_POINT_ANCHOR2..PROPOSED_POINT_POSITION => bits_of(corner(
            k,
            past(j, PROPOSED_POINT_ANCHOR2),
        )),
        PROPOSED_POINT_POSITION..PROPOSED_POINT_PENETRATION => bits_of(world_corner(
            bodies,
            above,
            k,
            past(j, PROPOSED_POINT_POSITION),
        )),
        PROPOSED_POINT_PENETRATION => bits_of(penetration(bodies, below, above)),
        PROPOSED_POINT_FEATURES => feature(below, k),
        _ => feature(above, k),
    }
}

fn manifold_count(bodies: &[u32], below: u32, above: u32) -> u32 {
    u32::from(penetration(bodies, below, above) > -0.02)
}

// In a proposal, the first manifold: the number of its points, its normal, the middle of this, its points, the end of the fourth.
const FIRST_COUNT: u32 = PROPOSAL_MANIFOLDS + PROPOSED_MANIFOLD_COUNT;

const FIRST_NORMAL: u32 = PROPOSAL_MANIFOLDS + PROPOSED_MANIFOLD_NORMAL;

const FIRST_NORMAL_Y: u32 = FIRST_NORMAL + 1;

const FIRST_POINTS: u32 = PROPOSAL_MANIFOLDS + PROPOSED_MANIFOLD_POINTS;

const CORNERS_END: u32 = FIRST_POINTS + CORNERS * PROPOSED_POINT_SIZE;

// The hook says no in three of fifty steps. The normal is along y.
fn proposal_word(bodies: &[u32], below: u32, above: u32, i: u32, step: u32) -> u32 {
    let k = past(i, FIRST_POINTS);
    match i {
        PROPOSAL_HOOK => u32::from(step % 50 >= 3),
        PROPOSAL_COUNT => manifold_count(bodies, below, above),
        FIRST_COUNT => CORNERS,
        FIRST_NORMAL_Y => 0x3f80_0000,
        FIRST_NORMAL..FIRST_POINTS => 0,
        _ => point_word(
            bodies,
            below,
            above,
            k / PROPOSED_POINT_SIZE,
            k % PROPOSED_POINT_SIZE,
        ),
    }
}

// As far as the fourth point of the first manifold.
fn propose(proposals: &mut [u32], graph: &[u32], bodies: &[u32], id: u32, step: u32) {
    let record = record(graph, id);
    let below = word(record, CONTACT_COLLIDER1);
    let above = word(record, CONTACT_COLLIDER2);
    fill(
        proposals,
        nth_place(id, PROPOSAL_SIZE, 0),
        CORNERS_END,
        |i| { proposal_word(bodies, below, above, i, step) },
    );
}

pub fn fill_proposals(proposals: &mut [u32], graph: &[u32], bodies: &[u32], step: u32) {
    for &id in listed_ids(graph) {
        propose(proposals, graph, bodies, id, step);
    }
}
