// How the boxes move in a step: each falls by 0.03 as far as the box below lets it, and shifts to and fro. Now and then the upper
// boxes are lifted.
use crate::boxes::body_presence;
use crate::places::{BOXES, body_at, position, put_float};
use case_draws::draws::{past, pick, slot};
use case_draws::numbers::{BODY_LINEAR_VELOCITY, BODY_POSITION, BODY_PRESENT, BODY_ROTATION};
use case_draws::places::put;

// About y: y is 0, 0.05 or 0.1, w its cosine; x and z are 0.
const TURNS: [u32; 3] = [0x0000_0000, 0x3d4c_cccd, 0x3dcc_cccd];

const COSINES: [u32; 3] = [0x3f80_0000, 0x3f7f_ae07, 0x3f7e_b77f];

// Every 25 steps the boxes from 5, 4 or 3 on, every 40 steps 7 and 8.
fn lifted(n: u32, step: u32) -> bool {
    if step % 25 == 15 {
        return 4 - step / 25 % 3 < n;
    }
    if step % 40 == 30 {
        return 6 < n;
    }
    false
}

fn height(y: f32, rest: f32, lift: bool) -> f32 {
    if lift {
        return y + 0.3;
    }
    if y - 0.03 < rest { rest } else { y - 0.03 }
}

// Every 48 steps a larger shift, and back after 24.
fn shifted(x: f32, n: u32, step: u32) -> f32 {
    match slot(step, n % BOXES * 3) % 48 {
        0 => x + 0.125,
        24 => x - 0.125,
        _ => if slot(step, n) % 2 == 0 {
            x + 0.01
        } else {
            x - 0.01
        },
    }
}

// The position and the velocity along an axis.
fn move_along(bodies: &mut [u32], n: u32, axis: u32, to: f32) {
    let from = position(bodies, n, axis);
    put_float(bodies, body_at(n, slot(BODY_POSITION, axis)), to);
    put_float(
        bodies,
        body_at(n, slot(BODY_LINEAR_VELOCITY, axis)),
        (to - from) * 64.0,
    );
}

// Box 4 turns about y every 32 steps.
fn turn(bodies: &mut [u32], step: u32) {
    put(
        bodies,
        body_at(4, slot(BODY_ROTATION, 1)),
        pick(&TURNS, step / 32),
    );
    put(
        bodies,
        body_at(4, slot(BODY_ROTATION, 3)),
        pick(&COSINES, step / 32),
    );
}

fn move_box(bodies: &mut [u32], n: u32, step: u32) {
    let rest = position(bodies, past(n, 1), 1) + 1.0;
    let y = height(position(bodies, n, 1), rest, lifted(n, step));
    move_along(bodies, n, 1, y);
    let x = shifted(position(bodies, n, 0), n, step);
    move_along(bodies, n, 0, x);
    put(bodies, body_at(n, BODY_PRESENT), body_presence(n, step));
}

// From the lowest up.
pub fn move_boxes(bodies: &mut [u32], step: u32) {
    turn(bodies, step);
    for n in 1..BOXES {
        move_box(bodies, n, step);
    }
}
