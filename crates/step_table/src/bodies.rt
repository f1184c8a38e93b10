// Bodies that move.
use crate::choices::choice;
use case_draws::draws::{Floats, draw, pick, slot, style};
use case_draws::numbers::{BODY_CENTER_OF_MASS, BODY_POSITION, BODY_ROTATION, BODY_SIZE};
use case_draws::places::{nth_place, put, word};
use math::bits::{bits_of, float_of};

// 0.001, -0.002, 0.004, 0.01, -0.02, 0.04, 0.1, 0.5.
const MOVES: [u32; 8] = [
    0x3a83_126f,
    0xbb03_126f,
    0x3b83_126f,
    0x3c23_d70a,
    0xbca3_d70a,
    0x3d23_d70a,
    0x3dcc_cccd,
    0x3f00_0000,
];

// NaN, the infinities, f32's largest, 1,000,000, -0, the least subnormal.
const WILD: [u32; 8] = [
    0x7fc0_0000,
    0x7fc0_0000,
    0x7f80_0000,
    0xff80_0000,
    0x7f7f_ffff,
    0x4974_2400,
    0x8000_0000,
    0x0000_0001,
];

fn moved(j: u32, wild: bool, w: u32) -> u32 {
    if wild {
        pick(&WILD, j)
    } else {
        bits_of(float_of(w) + float_of(pick(&MOVES, j)))
    }
}

// One in four parts of the position is moved, and one in eight of the rotation.
fn moved_word(owner: u32, i: u32, wild: bool, w: u32) -> u32 {
    let d = choice(owner, slot(80, i));
    let n = if i < BODY_ROTATION { 4 } else { 8 };
    if d % n == 0 { moved(d / n, wild, w) } else { w }
}

fn move_body(bodies: &mut [u32], n: u32, wild: bool, call: u32) {
    let owner = draw(call, slot(20, n));
    for i in BODY_POSITION..BODY_CENTER_OF_MASS {
        let at = nth_place(n, BODY_SIZE, i);
        put(bodies, at, moved_word(owner, i, wild, word(bodies, at)));
    }
}

// Where floats are awkward, one of them moves far.
pub fn move_bodies(bodies: &mut [u32], count: u32, one: u32, call: u32) {
    let far = style(call) == Floats::Awkward;
    for n in 0..count {
        move_body(bodies, n, far && n == one, call);
    }
}
