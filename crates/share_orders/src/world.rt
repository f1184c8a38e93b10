// What a step is given: settings, and colliders with a body each, drawn at a list's start, and kept, moved or drawn anew before a
// step, and proposals.

use crate::draws::{draw, float};
use crate::left::Left;
use crate::orders::{rubbish, shares_of};
use crate::places::{DRAWN, GRAPH_LENGTH, PROPOSALS_LENGTH};
use crate::proposed::fill_proposals;
use case_draws::draws::{all_but_one_in, one_in, past, pick, slot};
use case_draws::numbers::{
    BODY_CENTER_OF_MASS, BODY_FRICTION, BODY_MARGIN, BODY_POSITION, BODY_PRESENT, BODY_ROTATION,
    BODY_SIZE, BODY_SPECULATIVE_MAXIMUM, BODY_STATIC, COLLIDER_BODY, COLLIDER_BODY_NUMBER,
    COLLIDER_FILTERS, COLLIDER_FRICTION, COLLIDER_LOWER, COLLIDER_MARGIN, COLLIDER_MEMBERSHIPS,
    COLLIDER_POSITION, COLLIDER_PRESENT, COLLIDER_RESTITUTION, COLLIDER_SENSOR, COLLIDER_SIZE,
    COLLIDER_UPPER, SETTINGS_FRICTION, SETTINGS_MATCH_CONTACTS, SETTINGS_MATCHING,
    SETTINGS_MATCHING_VALUE, SETTINGS_RECYCLE_COSINE, SETTINGS_RESTITUTION, SETTINGS_STEP_TIME,
};
use case_draws::places::{fill, fill_nth, nth_place, put, word};
use layout::body::BODIES_LENGTH;
use layout::collider::COLLIDERS_LENGTH;
use layout::limits::BODIES;
use layout::settings::SETTINGS_LENGTH;
use math::bits::{bits_of, float_of};
use step::input::StepInput;
use step::step::step;

// 1/64, 1, 0.005, 0.05; 0.1, 1, 0.05, 0.5; 0.07, 2, 0, 0: step time, length unit, contact tolerance, recycle distance.
const SETTINGS: [[u32; 4]; 3] = [
    [0x3c80_0000, 0x3f80_0000, 0x3ba3_d70a, 0x3d4c_cccd],
    [0x3dcc_cccd, 0x3f80_0000, 0x3d4c_cccd, 0x3f00_0000],
    [0x3d8f_5c29, 0x4000_0000, 0x0000_0000, 0x3f80_0000],
];

// 0.5, 0.25, 0.3, 1, 0, 0.1, 0.01, NaN.
const COEFFICIENTS: [u32; 8] = [
    0x3f00_0000,
    0x3e80_0000,
    0x3e99_999a,
    0x3f80_0000,
    0x0000_0000,
    0x3dcc_cccd,
    0x3c23_d70a,
    0x7fc0_0000,
];

// The identity, about x by 0.6 and 0.8, a quarter about z, not a unit.
const ROTATIONS: [[u32; 4]; 4] = [
    [0x0000_0000, 0x0000_0000, 0x0000_0000, 0x3f80_0000],
    [0x3f19_999a, 0x0000_0000, 0x0000_0000, 0x3f4c_cccd],
    [0x0000_0000, 0x0000_0000, 0x3f35_04f3, 0x3f35_04f3],
    [0x3dcc_cccd, 0x3e4c_cccd, 0xbe99_999a, 0x3f66_6666],
];

// 0.001, -0.002, 0.01, 0.5.
const MOVES: [u32; 4] = [0x3a83_126f, 0xbb03_126f, 0x3c23_d70a, 0x3f00_0000];

fn coefficient(key: u32, choice: u32) -> u32 {
    pick(&COEFFICIENTS, draw(key, choice))
}

fn rule(key: u32, choice: u32) -> u32 {
    1 + draw(key, choice) % 5
}

fn first_setting(key: u32, j: u32) -> u32 {
    pick(&pick(&SETTINGS, draw(key, SETTINGS_STEP_TIME)), j)
}

// Matching is named in two of three, else behind a mark of 0.
fn setting_word(key: u32, i: u32) -> u32 {
    match i {
        SETTINGS_STEP_TIME..SETTINGS_RECYCLE_COSINE => first_setting(
            key,
            past(i, SETTINGS_STEP_TIME),
        ),
        SETTINGS_RECYCLE_COSINE => 0x3f7d_70a4,
        SETTINGS_MATCH_CONTACTS => all_but_one_in(draw(key, i), 4),
        SETTINGS_FRICTION | SETTINGS_RESTITUTION => coefficient(key, i),
        SETTINGS_MATCHING => all_but_one_in(draw(key, i), 3),
        SETTINGS_MATCHING_VALUE => one_in(draw(key, i), 2),
        _ => rule(key, i),
    }
}

// Mark, coefficient, rule: behind a mark of 0 any words.
fn coefficient_word(key: u32, at: u32, j: u32) -> u32 {
    match j {
        0 => one_in(draw(key, at), 2),
        1 => coefficient(key, slot(at, 1)),
        _ => rule(key, slot(at, 2)),
    }
}

// An end of the box on an axis: from -1 to 1 on most, else from 2 to 4.
fn end_word(key: u32, axis: u32, near: u32, far: u32) -> u32 {
    if draw(key, slot(COLLIDER_LOWER, axis)) % 40 == 0 {
        far
    } else {
        near
    }
}

// All, or one of the two memberships.
fn filters(d: u32) -> u32 {
    match d % 24 {
        0 => 2,
        1..=7 => 1,
        _ => 0xffff_ffff,
    }
}

// Box, position, memberships, filters.
fn place_word(key: u32, i: u32) -> u32 {
    match i {
        COLLIDER_LOWER..COLLIDER_UPPER => end_word(
            key,
            past(i, COLLIDER_LOWER),
            0xbf80_0000,
            0x4000_0000,
        ),
        COLLIDER_UPPER..COLLIDER_POSITION => end_word(
            key,
            past(i, COLLIDER_UPPER),
            0x3f80_0000,
            0x4080_0000,
        ),
        COLLIDER_MEMBERSHIPS => slot(one_in(draw(key, i), 40), 1),
        COLLIDER_FILTERS => filters(draw(key, i)),
        _ => float(key, i),
    }
}

// Friction, restitution, margin, the mark `sensor`.
fn surface_word(key: u32, i: u32) -> u32 {
    match i {
        COLLIDER_FRICTION..COLLIDER_RESTITUTION => coefficient_word(
            key,
            COLLIDER_FRICTION,
            past(i, COLLIDER_FRICTION),
        ),
        COLLIDER_RESTITUTION..COLLIDER_MARGIN => coefficient_word(
            key,
            COLLIDER_RESTITUTION,
            past(i, COLLIDER_RESTITUTION),
        ),
        COLLIDER_MARGIN => one_in(draw(key, i), 3),
        COLLIDER_MARGIN..COLLIDER_SENSOR => coefficient(key, i),
        _ => one_in(draw(key, COLLIDER_SENSOR), 12),
    }
}

fn collider_word(key: u32, n: u32, i: u32) -> u32 {
    match i {
        COLLIDER_PRESENT => all_but_one_in(draw(key, i), 32),
        COLLIDER_BODY => all_but_one_in(draw(key, i), 8),
        COLLIDER_BODY_NUMBER => n % BODIES,
        COLLIDER_LOWER..COLLIDER_FRICTION => place_word(key, i),
        _ => surface_word(key, i),
    }
}

fn rotation_word(key: u32, j: u32) -> u32 {
    pick(&pick(&ROTATIONS, draw(key, BODY_ROTATION)), j)
}

// Friction, margin, speculative maximum, sweep radius.
fn body_surface_word(key: u32, i: u32) -> u32 {
    match i {
        BODY_FRICTION..BODY_MARGIN => coefficient_word(key, BODY_FRICTION, past(i, BODY_FRICTION)),
        BODY_MARGIN => one_in(draw(key, i), 3),
        BODY_MARGIN..BODY_SPECULATIVE_MAXIMUM => coefficient(key, i),
        BODY_SPECULATIVE_MAXIMUM => one_in(draw(key, i), 2),
        _ => float(key, i),
    }
}

fn body_word(key: u32, i: u32) -> u32 {
    match i {
        BODY_PRESENT => all_but_one_in(draw(key, i), 16),
        BODY_STATIC => one_in(draw(key, i), 4),
        BODY_ROTATION..BODY_CENTER_OF_MASS => rotation_word(key, past(i, BODY_ROTATION)),
        BODY_FRICTION..BODY_SIZE => body_surface_word(key, i),
        _ => float(key, i),
    }
}

// One in two words of the positions is moved.
fn move_body(bodies: &mut [u32], key: u32, n: u32) {
    for i in BODY_POSITION..BODY_ROTATION {
        let d = draw(draw(key, slot(20, n)), i);
        if d % 2 == 0 {
            let at = nth_place(n, BODY_SIZE, i);
            let by = float_of(pick(&MOVES, d / 2));
            put(bodies, at, bits_of(float_of(word(bodies, at)) + by));
        }
    }
}

#[derive(Clone, Copy)]
pub struct World {
    settings: [u32; SETTINGS_LENGTH],
    colliders: [u32; COLLIDERS_LENGTH],
    bodies: [u32; BODIES_LENGTH],
    proposals: [u32; PROPOSALS_LENGTH],
}

impl World {
    pub fn new() -> Self {
        World {
            settings: [0; SETTINGS_LENGTH],
            colliders: [0; COLLIDERS_LENGTH],
            bodies: [0; BODIES_LENGTH],
            proposals: [0; PROPOSALS_LENGTH],
        }
    }

    // Drawn where it stands: the rows are large.
    pub fn start(&mut self, key: u32) {
        fill(&mut self.settings, 0, SETTINGS_LENGTH as u32, |i| {
            setting_word(key, i)
        });
        for n in 0..DRAWN {
            self.fill(key, n);
        }
    }

    // A collider and its body.
    fn fill(&mut self, key: u32, n: u32) {
        let collider = draw(key, slot(10, n));
        let body = draw(key, slot(20, n));
        fill_nth(&mut self.colliders, n, COLLIDER_SIZE, |i| {
            collider_word(collider, n, i)
        });
        fill_nth(&mut self.bodies, n, BODY_SIZE, |i| body_word(body, i));
    }

    // Half of the steps find the world as it was; in a quarter the bodies are moved, in a quarter a collider and its body drawn anew.
    pub fn change(&mut self, graph: &[u32], key: u32) {
        let d = draw(key, 1);
        match d % 4 {
            0 => {
                for n in 0..DRAWN {
                    move_body(&mut self.bodies, key, n);
                }
            }
            1 => self.fill(key, d / 4 % DRAWN),
            _ => {}
        }
        fill_proposals(&mut self.proposals, graph, key);
    }

    // A step by one of the nine shares, from the graph that the last step left.
    pub fn run(&self, graph: &[u32; GRAPH_LENGTH], share: u32, key: u32, left: &mut Left) {
        left.begin(graph);
        let shares = shares_of(graph, share, draw(key, slot(800, share)));
        let mut bits = rubbish(draw(key, slot(900, share)));
        let input = StepInput {
            settings: &self.settings,
            colliders: &self.colliders,
            bodies: &self.bodies,
            proposals: &self.proposals,
            shares: &shares,
        };
        left.answer = step(
            &input,
            &mut left.graph,
            &mut bits,
            &mut left.events,
            &mut left.changes,
            &mut left.distances,
        );
    }
}
