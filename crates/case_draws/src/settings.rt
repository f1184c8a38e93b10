// A case's settings.

use crate::draws::{all_but_one_in, draw, one_in, pick, slot};
use crate::numbers::{
    SETTINGS_CONTACT_TOLERANCE, SETTINGS_FRICTION, SETTINGS_LENGTH, SETTINGS_LENGTH_UNIT,
    SETTINGS_MATCH_CONTACTS, SETTINGS_MATCHING, SETTINGS_MATCHING_VALUE, SETTINGS_RECYCLE_COSINE,
    SETTINGS_RECYCLE_DISTANCE, SETTINGS_RESTITUTION, SETTINGS_STEP_TIME,
};
use crate::places::fill;

// 1/64, 1/60, 0.3, 0.1, 0.07, 1, 0, -1/64, infinite, NaN.
const TIMES: [u32; 16] = [
    0x3c80_0000,
    0x3c80_0000,
    0x3c80_0000,
    0x3c88_8889,
    0x3c88_8889,
    0x3e99_999a,
    0x3dcc_cccd,
    0x3dcc_cccd,
    0x3d8f_5c29,
    0x3f80_0000,
    0x3f80_0000,
    0x0000_0000,
    0xbc80_0000,
    0x7f80_0000,
    0x7f80_0000,
    0x7fc0_0000,
];

// 1, 2, 0.5, 100, 0, -1, NaN, infinite.
const UNITS: [u32; 16] = [
    0x3f80_0000,
    0x3f80_0000,
    0x3f80_0000,
    0x3f80_0000,
    0x3f80_0000,
    0x3f80_0000,
    0x3f80_0000,
    0x4000_0000,
    0x4000_0000,
    0x3f00_0000,
    0x3f00_0000,
    0x42c8_0000,
    0x0000_0000,
    0xbf80_0000,
    0x7fc0_0000,
    0x7f80_0000,
];

// 0.005, 0.05, 0.5, 0, -0.01, NaN.
const TOLERANCES: [u32; 16] = [
    0x3ba3_d70a,
    0x3ba3_d70a,
    0x3ba3_d70a,
    0x3ba3_d70a,
    0x3ba3_d70a,
    0x3d4c_cccd,
    0x3d4c_cccd,
    0x3d4c_cccd,
    0x3d4c_cccd,
    0x3f00_0000,
    0x3f00_0000,
    0x3f00_0000,
    0x3f00_0000,
    0x0000_0000,
    0xbc23_d70a,
    0x7fc0_0000,
];

// 0.05, 0.5, 1, 0.2, 0, -0.1, NaN, infinite.
const DISTANCES: [u32; 16] = [
    0x3d4c_cccd,
    0x3d4c_cccd,
    0x3d4c_cccd,
    0x3f00_0000,
    0x3f00_0000,
    0x3f00_0000,
    0x3f00_0000,
    0x3f80_0000,
    0x3f80_0000,
    0x3e4c_cccd,
    0x3e4c_cccd,
    0x3e4c_cccd,
    0x0000_0000,
    0xbdcc_cccd,
    0x7fc0_0000,
    0x7f80_0000,
];

// 0.99, 0.9, 0.5, 0.8 squared, 1, 0.25, 0, -1, NaN.
const COSINES: [u32; 16] = [
    0x3f7d_70a4,
    0x3f7d_70a4,
    0x3f7d_70a4,
    0x3f7d_70a4,
    0x3f66_6666,
    0x3f66_6666,
    0x3f66_6666,
    0x3f00_0000,
    0x3f00_0000,
    0x3f23_d70b,
    0x3f23_d70b,
    0x3f80_0000,
    0x3e80_0000,
    0x0000_0000,
    0xbf80_0000,
    0x7fc0_0000,
];

// 0.5, 0.25, 0.75, 0.3, 1, 2, 0.1, 0, -0, -0.5, a subnormal, infinite, NaN.
const COEFFICIENTS: [u32; 16] = [
    0x3f00_0000,
    0x3f00_0000,
    0x3e80_0000,
    0x3f40_0000,
    0x3e99_999a,
    0x3f80_0000,
    0x4000_0000,
    0x3dcc_cccd,
    0x3f00_0000,
    0x3f00_0001,
    0x0000_0000,
    0x8000_0000,
    0xbf00_0000,
    0x0001_16c2,
    0x7f80_0000,
    0x7fc0_0000,
];

pub fn coefficient(owner: u32, slot: u32) -> u32 {
    pick(&COEFFICIENTS, draw(owner, slot))
}

pub fn rule(owner: u32, slot: u32) -> u32 {
    1 + draw(owner, slot) % 5
}

// Matching is named by number: the Rust's.
pub fn setting_word(case: u32, i: u32) -> u32 {
    let owner = draw(case, 30);
    let d = draw(owner, i);
    match i {
        SETTINGS_STEP_TIME => pick(&TIMES, d),
        SETTINGS_LENGTH_UNIT => pick(&UNITS, d),
        SETTINGS_CONTACT_TOLERANCE => pick(&TOLERANCES, d),
        SETTINGS_RECYCLE_DISTANCE => pick(&DISTANCES, d),
        SETTINGS_RECYCLE_COSINE => pick(&COSINES, d),
        SETTINGS_MATCH_CONTACTS => all_but_one_in(draw(owner, i), 4),
        SETTINGS_FRICTION | SETTINGS_RESTITUTION => coefficient(owner, i),
        SETTINGS_MATCHING => 1,
        SETTINGS_MATCHING_VALUE => 0,
        _ => rule(owner, i),
    }
}

pub fn fill_settings(settings: &mut [u32], case: u32) {
    fill(settings, 0, SETTINGS_LENGTH, |i| setting_word(case, i));
}

// Mark, coefficient, rule: a rule behind a mark of 0 is any word.
pub fn coefficient_word(owner: u32, at: u32, j: u32) -> u32 {
    let mark = one_in(draw(owner, at), 2);
    match j {
        0 => mark,
        1 => coefficient(owner, slot(at, 1)),
        _ => if mark == 0 {
            draw(owner, slot(at, 2))
        } else {
            rule(owner, slot(at, 2))
        },
    }
}

// 0.01, 0.1, 0.004, 0.5, 0, -0.05, infinite, NaN.
const MARGINS: [u32; 16] = [
    0x3c23_d70a,
    0x3c23_d70a,
    0x3c23_d70a,
    0x3dcc_cccd,
    0x3dcc_cccd,
    0x3dcc_cccd,
    0x3b83_126f,
    0x3b83_126f,
    0x3b83_126f,
    0x3f00_0000,
    0x3f00_0000,
    0x0000_0000,
    0xbd4c_cccd,
    0xbd4c_cccd,
    0x7f80_0000,
    0x7fc0_0000,
];

pub fn margin_word(owner: u32, at: u32, j: u32) -> u32 {
    match j {
        0 => one_in(draw(owner, at), 3),
        _ => pick(&MARGINS, draw(owner, slot(at, 1))),
    }
}
