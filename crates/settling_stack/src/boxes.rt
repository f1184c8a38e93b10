// The settings, and the records of the colliders and bodies: the floor is number 0, the boxes are 1 to 8, each a collider with a
// body of its number. Every box is a cube of side 1; the floor is ten wide, with its top at 0.
ghost use Rattle.std.specs.Prelude.{◌<◌};

use crate::places::{BOXES, position};
use case_draws::draws::{past, pick};
use case_draws::numbers::{
    BODY_CENTER_OF_MASS, BODY_FRICTION, BODY_MARGIN, BODY_POSITION, BODY_PRESENT, BODY_SIZE,
    BODY_SPECULATIVE_MAXIMUM, BODY_STATIC, BODY_SWEEP_RADIUS, COLLIDER_BODY, COLLIDER_BODY_NUMBER,
    COLLIDER_FILTERS, COLLIDER_FRICTION, COLLIDER_LOWER, COLLIDER_MARGIN, COLLIDER_MEMBERSHIPS,
    COLLIDER_POSITION, COLLIDER_PRESENT, COLLIDER_RESTITUTION, COLLIDER_SENSOR, COLLIDER_SIZE,
    COLLIDER_UPPER, SETTINGS_CONTACT_TOLERANCE, SETTINGS_FRICTION, SETTINGS_LENGTH,
    SETTINGS_LENGTH_UNIT, SETTINGS_MATCH_CONTACTS, SETTINGS_MATCHING, SETTINGS_RECYCLE_COSINE,
    SETTINGS_RECYCLE_DISTANCE, SETTINGS_RESTITUTION, SETTINGS_STEP_TIME,
};
use case_draws::places::{fill, fill_nth};
use math::bits::bits_of;

// The middles' heights at the start: -0.5, 0.53, 1.83, 2.89, 4.04, 5.04, 6.54, 7.63, 8.65.
const HEIGHTS: [u32; BOXES as usize] = [
    0xbf00_0000,
    0x3f07_ae14,
    0x3fea_3d71,
    0x4038_f5c3,
    0x4081_47ae,
    0x40a1_47ae,
    0x40d1_47ae,
    0x40f4_28f6,
    0x410a_6666,
];

// The rules of friction and restitution stand behind their coefficients.
const FRICTION_RULE: u32 = SETTINGS_FRICTION + 1;

const RESTITUTION_RULE: u32 = SETTINGS_RESTITUTION + 1;

// Step time 1/64, length unit 1, contact tolerance 0.005, recycle distance 0.05, squared cosine 0.99; friction 0.5 by rule 1,
// restitution 0.1 by rule 2. Matching is named by number: the Rust's.
fn setting_word(i: u32) -> u32 {
    match i {
        SETTINGS_STEP_TIME => 0x3c80_0000,
        SETTINGS_LENGTH_UNIT => 0x3f80_0000,
        SETTINGS_CONTACT_TOLERANCE => 0x3ba3_d70a,
        SETTINGS_RECYCLE_DISTANCE => 0x3d4c_cccd,
        SETTINGS_RECYCLE_COSINE => 0x3f7d_70a4,
        SETTINGS_MATCH_CONTACTS | SETTINGS_MATCHING => 1,
        SETTINGS_FRICTION => 0x3f00_0000,
        FRICTION_RULE => 1,
        SETTINGS_RESTITUTION => 0x3dcc_cccd,
        RESTITUTION_RULE => 2,
        _ => 0,
    }
}

pub fn fill_settings(settings: &mut [u32]) {
    fill(settings, 0, SETTINGS_LENGTH, setting_word);
}

// Mark, coefficient, rule: for one in m of the numbers.
fn coefficient_word(n: u32, m: u32, j: u32) -> u32
    requires { 0 < m }
{
    match j {
        0 => u32::from(n % m == 1),
        1 => 0x3e99_999a,
        _ => 1 + n % 5,
    }
}

// Half a side of the box, which is larger by 0.05 on each: the floor is wider than high.
fn half(n: u32, axis: u32) -> f32 {
    if axis == 1 {
        return 0.55;
    }
    if n == 0 { 5.05 } else { 0.55 }
}

fn lower_word(bodies: &[u32], n: u32, axis: u32) -> u32 {
    bits_of(position(bodies, n, axis) - half(n, axis))
}

fn upper_word(bodies: &[u32], n: u32, axis: u32) -> u32 {
    bits_of(position(bodies, n, axis) + half(n, axis))
}

// Box 2 is not there in one of a hundred steps.
fn collider_presence(n: u32, step: u32) -> u32 {
    u32::from(n != 2 || step % 100 != 95)
}

// Box 6 is a sensor for fifty steps in 150.
fn sensor(n: u32, step: u32) -> u32 {
    u32::from(n == 6 && step / 50 % 3 == 1)
}

fn collider_word(bodies: &[u32], n: u32, i: u32, step: u32) -> u32 {
    match i {
        COLLIDER_PRESENT => collider_presence(n, step),
        COLLIDER_BODY | COLLIDER_MEMBERSHIPS => 1,
        COLLIDER_BODY_NUMBER => n,
        COLLIDER_LOWER..COLLIDER_UPPER => lower_word(bodies, n, past(i, COLLIDER_LOWER)),
        COLLIDER_UPPER..COLLIDER_POSITION => upper_word(bodies, n, past(i, COLLIDER_UPPER)),
        COLLIDER_POSITION..COLLIDER_MEMBERSHIPS => bits_of(position(
            bodies,
            n,
            past(i, COLLIDER_POSITION),
        )),
        COLLIDER_FILTERS => 0xffff_ffff,
        COLLIDER_FRICTION..COLLIDER_RESTITUTION => coefficient_word(
            n,
            2,
            past(i, COLLIDER_FRICTION),
        ),
        COLLIDER_RESTITUTION..COLLIDER_MARGIN => coefficient_word(
            n,
            3,
            past(i, COLLIDER_RESTITUTION),
        ),
        COLLIDER_MARGIN => u32::from(n == 5),
        COLLIDER_MARGIN..COLLIDER_SENSOR => 0x3b44_9ba6,
        _ => sensor(n, step),
    }
}

// Box 7 has no body for four steps in a hundred.
pub fn body_presence(n: u32, step: u32) -> u32 {
    u32::from(n != 7 || step % 100 / 4 != 21)
}

// The middle of position, and the last of rotation.
const BODY_HEIGHT: u32 = BODY_POSITION + 1;

const BODY_COSINE: u32 = BODY_CENTER_OF_MASS - 1;

// At rest at the start's height; box 3 has a margin, boxes 6 and 8 a speculative maximum of 0.1; the sweep radius is 0.9.
fn body_word(n: u32, i: u32) -> u32 {
    match i {
        BODY_PRESENT => 1,
        BODY_STATIC => u32::from(n == 0),
        BODY_HEIGHT => pick(&HEIGHTS, n),
        BODY_COSINE => 0x3f80_0000,
        BODY_FRICTION..BODY_MARGIN => coefficient_word(n, 4, past(i, BODY_FRICTION)),
        BODY_MARGIN => u32::from(n == 3),
        BODY_MARGIN..BODY_SPECULATIVE_MAXIMUM => 0x3b03_126f,
        BODY_SPECULATIVE_MAXIMUM => u32::from(n == 6 || n == 8),
        BODY_SPECULATIVE_MAXIMUM..BODY_SWEEP_RADIUS => 0x3dcc_cccd,
        BODY_SWEEP_RADIUS => 0x3f66_6666,
        _ => 0,
    }
}

pub fn fill_colliders(colliders: &mut [u32], bodies: &[u32], step: u32) {
    for n in 0..BOXES {
        fill_nth(colliders, n, COLLIDER_SIZE, |i| {
            collider_word(bodies, n, i, step)
        });
    }
}

pub fn fill_bodies(bodies: &mut [u32]) {
    for n in 0..BOXES {
        fill_nth(bodies, n, BODY_SIZE, |i| body_word(n, i));
    }
}
