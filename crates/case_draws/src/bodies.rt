// A case's bodies.
use crate::draws::{Floats, all_but_one_in, draw, float, one_in, past, pick, slot, style};
use crate::numbers::{
    BODY_CENTER_OF_MASS, BODY_FRICTION, BODY_LINEAR_VELOCITY, BODY_MARGIN, BODY_POSITION,
    BODY_PRESENT, BODY_ROTATION, BODY_SIZE, BODY_SPECULATIVE_MAXIMUM, BODY_STATIC,
    BODY_SWEEP_RADIUS,
};
use crate::places::fill_nth;
use crate::settings::{coefficient_word, margin_word};

// The identity, about x by 0.6 and 0.8, a quarter about z, a third about the diagonal, a half about y, not a unit.
const ROTATIONS: [[u32; 4]; 8] = [
    [0x0000_0000, 0x0000_0000, 0x0000_0000, 0x3f80_0000],
    [0x0000_0000, 0x0000_0000, 0x0000_0000, 0x3f80_0000],
    [0x0000_0000, 0x0000_0000, 0x0000_0000, 0x3f80_0000],
    [0x3f19_999a, 0x0000_0000, 0x0000_0000, 0x3f4c_cccd],
    [0x0000_0000, 0x0000_0000, 0x3f35_04f3, 0x3f35_04f3],
    [0x3f00_0000, 0x3f00_0000, 0x3f00_0000, 0x3f00_0000],
    [0x0000_0000, 0x3f80_0000, 0x0000_0000, 0x0000_0000],
    [0x3dcc_cccd, 0x3e4c_cccd, 0xbe99_999a, 0x3f66_6666],
];

// 0.1, 0.013, 1, 10, 0.01, 0.017, 0, f32's largest, infinite, NaN, -1.
const MAXIMA: [u32; 16] = [
    0x3dcc_cccd,
    0x3dcc_cccd,
    0x3c54_fdf4,
    0x3f80_0000,
    0x4120_0000,
    0x3c23_d70a,
    0x3c8b_4396,
    0x0000_0000,
    0x0000_0000,
    0x7f7f_ffff,
    0x7f7f_ffff,
    0x7f7f_ffff,
    0x7f80_0000,
    0x7fc0_0000,
    0x7fc0_0000,
    0xbf80_0000,
];

// 1, 0.5, 2, 0.1, 0, infinite, NaN, -1.
const RADII: [u32; 16] = [
    0x3f80_0000,
    0x3f80_0000,
    0x3f80_0000,
    0x3f80_0000,
    0x3f00_0000,
    0x3f00_0000,
    0x3f00_0000,
    0x4000_0000,
    0x4000_0000,
    0x3dcc_cccd,
    0x3dcc_cccd,
    0x3dcc_cccd,
    0x0000_0000,
    0x7f80_0000,
    0x7fc0_0000,
    0xbf80_0000,
];

// Neither body is there.
fn no_bodies(case: u32) -> bool {
    draw(case, 4) % 24 == 0
}

fn presence(case: u32, owner: u32) -> u32 {
    if no_bodies(case) {
        0
    } else {
        all_but_one_in(draw(owner, BODY_PRESENT), 16)
    }
}

pub fn rotation(owner: u32, slot: u32, j: u32) -> u32 {
    pick(&pick(&ROTATIONS, draw(owner, slot) / 8), j)
}

fn rotation_word(owner: u32, i: u32, style: Floats) -> u32 {
    if style == Floats::Awkward && draw(owner, BODY_ROTATION) % 8 == 0 {
        return float(owner, slot(40, i), style);
    }
    rotation(owner, BODY_ROTATION, past(i, BODY_ROTATION))
}

// Half of the centres of mass are 0.
fn centre_word(owner: u32, i: u32, style: Floats) -> u32 {
    if draw(owner, 60) % 2 == 0 {
        0
    } else {
        float(owner, i, style)
    }
}

// Position, rotation, centre of mass, velocities.
fn motion_word(owner: u32, i: u32, style: Floats) -> u32 {
    match i {
        BODY_ROTATION..BODY_CENTER_OF_MASS => rotation_word(owner, i, style),
        BODY_CENTER_OF_MASS..BODY_LINEAR_VELOCITY => centre_word(owner, i, style),
        _ => float(owner, i, style),
    }
}

pub fn body_word(case: u32, n: u32, i: u32) -> u32 {
    let owner = draw(case, slot(20, n));
    match i {
        BODY_PRESENT => presence(case, owner),
        BODY_STATIC => one_in(draw(owner, i), 4),
        BODY_POSITION..BODY_FRICTION => motion_word(owner, i, style(case)),
        BODY_FRICTION..BODY_MARGIN => coefficient_word(
            owner,
            BODY_FRICTION,
            past(i, BODY_FRICTION),
        ),
        BODY_MARGIN..BODY_SPECULATIVE_MAXIMUM => margin_word(
            owner,
            BODY_MARGIN,
            past(i, BODY_MARGIN),
        ),
        BODY_SPECULATIVE_MAXIMUM => one_in(draw(owner, i), 2),
        BODY_SPECULATIVE_MAXIMUM..BODY_SWEEP_RADIUS => pick(&MAXIMA, draw(owner, i)),
        _ => pick(&RADII, draw(owner, BODY_SWEEP_RADIUS)),
    }
}

pub fn fill_body(bodies: &mut [u32], n: u32, case: u32) {
    fill_nth(bodies, n, BODY_SIZE, |i| body_word(case, n, i));
}
