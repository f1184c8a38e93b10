// A case's manifolds and points, proposed and stored. Places past a count are filled too.
ghost use Rattle.std.specs.Prelude.{◌≤◌, ◌<◌};
ghost use Rattle.rules.specs.Limits.{stored_points, proposed_points};

use crate::draws::{Floats, draw, float, one_in, past, pick, slot, style};
use crate::numbers::{
    MANIFOLD_COUNT, MANIFOLD_FRICTION, MANIFOLD_NORMAL, MANIFOLD_POINTS, MANIFOLDS, POINT_ANCHOR1,
    POINT_BASE_PENETRATION, POINT_FEATURE2, POINT_FEATURES, POINT_PENETRATION, POINT_POSITION,
    POINT_SIZE, PROPOSAL_COUNT, PROPOSAL_HOOK, PROPOSAL_MANIFOLDS, PROPOSAL_SIZE,
    PROPOSED_MANIFOLD_COUNT, PROPOSED_MANIFOLD_NORMAL, PROPOSED_MANIFOLD_POINTS,
    PROPOSED_MANIFOLD_SIZE, PROPOSED_POINT_ANCHOR1, PROPOSED_POINT_PENETRATION,
    PROPOSED_POINT_POSITION, PROPOSED_POINT_SIZE, PROPOSED_POINTS, STORED_POINTS,
};
use crate::places::fill_nth;

// 0, 0.1, 0.05, the floats beside 0.1, -0.1, 0.5.
const OFFSETS: [u32; 8] = [
    0x0000_0000,
    0x0000_0000,
    0x3dcc_cccd,
    0x3d4c_cccd,
    0x3dcc_cccc,
    0x3dcc_ccce,
    0xbdcc_cccd,
    0x3f00_0000,
];

// -0.004, -0.005, -0.01, -0.02, -0.05, -0.1, -0.5, 0.01, 0.1, 0.5, 0, -0, 1, -2, -0.25, NaN.
const PENETRATIONS: [u32; 16] = [
    0xbb83_126f,
    0xbba3_d70a,
    0xbc23_d70a,
    0xbca3_d70a,
    0xbd4c_cccd,
    0xbdcc_cccd,
    0xbf00_0000,
    0x3c23_d70a,
    0x3dcc_cccd,
    0x3f00_0000,
    0x0000_0000,
    0x8000_0000,
    0x3f80_0000,
    0xc000_0000,
    0xbe80_0000,
    0x7fc0_0000,
];

// The last is one by its own draws.
const NORMALS: [[u32; 3]; 8] = [
    [0, 0, 0x3f80_0000],
    [0, 0, 0x3f80_0000],
    [0, 0x3f80_0000, 0],
    [0x3f19_999a, 0, 0x3f4c_cccd],
    [0, 0xbf80_0000, 0],
    [0x3f80_0000, 0, 0],
    [0x3f13_cd3a, 0x3f13_cd3a, 0x3f13_cd3a],
    [0, 0, 0],
];

fn normal(owner: u32, j: u32, style: Floats) -> u32 {
    let d = draw(owner, 70) % 8;
    if d == 7 {
        float(owner, slot(71, j), style)
    } else {
        pick(&pick(&NORMALS, d), j)
    }
}

// A place on a grid with small offsets.
pub fn grid(d: u32, j: u32) -> u32 {
    match j % 3 {
        0 => pick(&OFFSETS, d % 2 * 7),
        1 => pick(&OFFSETS, d),
        _ => pick(&OFFSETS, d % 3),
    }
}

// In coarse cases on the grid.
fn anchor(owner: u32, j: u32, style: Floats) -> u32 {
    if style == Floats::Coarse {
        grid(draw(owner, j), j)
    } else {
        float(owner, j, style)
    }
}

fn penetration(owner: u32, at: u32, style: Floats) -> u32 {
    let d = draw(owner, at);
    if d % 2 == 0 {
        pick(&PENETRATIONS, d / 2)
    } else {
        float(owner, slot(100, at), style)
    }
}

// Few features, unknown ones among them; many; many and unknown ones; few known ones: one by the case's choice.
pub fn feature_word(choice: u32, d: u32) -> u32 {
    match choice % 4 {
        0 => d % 5 / 2 * 0x4000_0001,
        1 => 0xc000_0000 + d % 50,
        2 => if d % 3 == 0 { 0 } else { 0x4000_0000 + d % 50 },
        _ => 1 + d % 5,
    }
}

fn feature(case: u32, owner: u32, at: u32) -> u32 {
    feature_word(draw(case, 3), draw(owner, at))
}

// How many more points are proposed than stored, at most, and the fewest that are too many to store.
const MORE_POINTS: u32 = PROPOSED_POINTS - STORED_POINTS;

const TOO_MANY_POINTS: u32 = STORED_POINTS + 1;

// A number of points, d being a draw: up to as many as are stored.
pub fn few_points(d: u32) -> u32
    ensures { result ≤ stored_points }
{
    d % TOO_MANY_POINTS
}

// More than are stored, up to as many as are proposed.
pub fn many_points(d: u32) -> u32
    ensures { (stored_points < result) × (result ≤ proposed_points) }
{
    TOO_MANY_POINTS + d % MORE_POINTS
}

// ---- proposed
fn proposed_point_word(case: u32, owner: u32, j: u32) -> u32 {
    match j {
        PROPOSED_POINT_ANCHOR1..PROPOSED_POINT_POSITION => anchor(owner, j, style(case)),
        PROPOSED_POINT_POSITION..PROPOSED_POINT_PENETRATION => float(owner, j, style(case)),
        PROPOSED_POINT_PENETRATION => penetration(owner, j, style(case)),
        _ => feature(case, owner, j),
    }
}

// Many in one of four, and the most in one of sixteen, else few.
fn proposed_count(owner: u32) -> u32 {
    let d = draw(owner, PROPOSED_MANIFOLD_COUNT);
    match d % 16 {
        0 => PROPOSED_POINTS,
        1..=4 => many_points(d / 16),
        _ => few_points(d / 16),
    }
}

fn proposed_manifold_word(case: u32, owner: u32, r: u32) -> u32 {
    let k = past(r, PROPOSED_MANIFOLD_POINTS);
    match r {
        PROPOSED_MANIFOLD_COUNT => proposed_count(owner),
        PROPOSED_MANIFOLD_NORMAL..PROPOSED_MANIFOLD_POINTS => normal(
            owner,
            past(r, PROPOSED_MANIFOLD_NORMAL),
            style(case),
        ),
        _ => proposed_point_word(
            case,
            draw(owner, slot(100, k / PROPOSED_POINT_SIZE)),
            k % PROPOSED_POINT_SIZE,
        ),
    }
}

// Up to the most, seldom 0.
fn manifold_count(owner: u32) -> u32 {
    let d = draw(owner, PROPOSAL_COUNT);
    if d % 12 == 0 {
        0
    } else {
        1 + d / 12 % MANIFOLDS
    }
}

pub fn proposal_word(case: u32, i: u32) -> u32 {
    let owner = draw(case, 50);
    let k = past(i, PROPOSAL_MANIFOLDS);
    match i {
        PROPOSAL_HOOK => one_in(draw(owner, i), 2),
        PROPOSAL_COUNT => manifold_count(owner),
        _ => proposed_manifold_word(
            case,
            draw(owner, slot(100, k / PROPOSED_MANIFOLD_SIZE)),
            k % PROPOSED_MANIFOLD_SIZE,
        ),
    }
}

pub fn fill_proposal(proposals: &mut [u32], id: u32, case: u32) {
    fill_nth(proposals, id, PROPOSAL_SIZE, |i| proposal_word(case, i));
}

// ---- stored
fn point_word(case: u32, owner: u32, j: u32) -> u32 {
    match j {
        POINT_ANCHOR1..POINT_POSITION => anchor(owner, j, style(case)),
        POINT_PENETRATION | POINT_BASE_PENETRATION => penetration(owner, j, style(case)),
        POINT_FEATURES | POINT_FEATURE2 => feature(case, owner, j),
        _ => float(owner, j, style(case)),
    }
}

pub fn manifold_word(case: u32, owner: u32, r: u32) -> u32 {
    let k = past(r, MANIFOLD_POINTS);
    match r {
        MANIFOLD_COUNT => few_points(draw(owner, r)),
        MANIFOLD_NORMAL..MANIFOLD_FRICTION => normal(owner, past(r, MANIFOLD_NORMAL), style(case)),
        MANIFOLD_FRICTION..MANIFOLD_POINTS => float(owner, r, style(case)),
        _ => point_word(case, draw(owner, slot(100, k / POINT_SIZE)), k % POINT_SIZE),
    }
}
