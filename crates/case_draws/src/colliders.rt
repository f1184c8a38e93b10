// A case's colliders.
use crate::bodies::body_word;
use crate::draws::{all_but_one_in, draw, float, one_in, past, pick, slot, style};
use crate::numbers::{
    BODY_POSITION, COLLIDER_BODY, COLLIDER_BODY_NUMBER, COLLIDER_FRICTION, COLLIDER_LOWER,
    COLLIDER_MARGIN, COLLIDER_MEMBERSHIPS, COLLIDER_POSITION, COLLIDER_PRESENT,
    COLLIDER_RESTITUTION, COLLIDER_SENSOR, COLLIDER_SIZE, COLLIDER_UPPER,
};
use crate::places::fill_nth;
use crate::settings::{coefficient_word, margin_word};
use layout::limits::BODIES;

// Lower and upper ends on an axis: apart by 1.5, by 1, touching on either side, apart by 1.25, NaN, infinite, lower above upper.
const LOWER: [u32; 8] = [
    0x4020_0000,
    0x4000_0000,
    0x3f80_0000,
    0xc040_0000,
    0xc080_0000,
    0x7fc0_0000,
    0xff80_0000,
    0x3f80_0000,
];

const UPPER: [u32; 8] = [
    0x4080_0000,
    0x4040_0000,
    0x4040_0000,
    0xbf80_0000,
    0xc010_0000,
    0x3f80_0000,
    0x7f80_0000,
    0xbf80_0000,
];

const MEMBERSHIPS: [u32; 8] = [1, 1, 3, 5, 9, 0x8000_0001, 0xffff_ffff, 2];

const FILTERS: [u32; 8] = [
    0xffff_ffff,
    0xffff_ffff,
    0xffff_ffff,
    0xffff_ffff,
    0xffff_ffff,
    0xffff_ffff,
    0x8000_0003,
    0xffff_fffe,
];

const LAST_BODY: u32 = BODIES - 1;

// One of the ends, the same for lower and upper; on most axes the usual one.
fn end_word(owner: u32, axis: u32, ends: &[u32; 8], usual: u32) -> u32 {
    let d = draw(owner, slot(COLLIDER_LOWER, axis)) % 160;
    ends.get(d as usize).copied().unwrap_or(usual)
}

// At times none.
fn layers_word(owner: u32, i: u32) -> u32 {
    let d = draw(owner, i);
    if d % 64 == 0 {
        return 0;
    }
    if i == COLLIDER_MEMBERSHIPS {
        pick(&MEMBERSHIPS, d / 64)
    } else {
        pick(&FILTERS, d / 64)
    }
}

// Its own, at times the other's or one that is absent; behind a mark of 0 any word.
fn body_number(owner: u32, n: u32) -> u32 {
    let d = draw(owner, COLLIDER_BODY_NUMBER);
    if one_in(draw(owner, COLLIDER_BODY), 12) == 1 {
        return d;
    }
    match d % 24 {
        0 => LAST_BODY,
        1 => past(1, n),
        _ => n,
    }
}

// Half of them stand where their bodies do.
fn position_word(case: u32, n: u32, owner: u32, i: u32) -> u32 {
    if draw(owner, 61) % 2 == 0 {
        body_word(case, n, slot(BODY_POSITION, past(i, COLLIDER_POSITION)))
    } else {
        float(owner, i, style(case))
    }
}

// The box goes from -1 to 1 on most axes.
fn place_word(case: u32, n: u32, owner: u32, i: u32) -> u32 {
    match i {
        COLLIDER_LOWER..COLLIDER_UPPER => end_word(
            owner,
            past(i, COLLIDER_LOWER),
            &LOWER,
            0xbf80_0000,
        ),
        COLLIDER_UPPER..COLLIDER_POSITION => end_word(
            owner,
            past(i, COLLIDER_UPPER),
            &UPPER,
            0x3f80_0000,
        ),
        COLLIDER_POSITION..COLLIDER_MEMBERSHIPS => position_word(case, n, owner, i),
        _ => layers_word(owner, i),
    }
}

pub fn collider_word(case: u32, n: u32, i: u32) -> u32 {
    let owner = draw(case, slot(10, n));
    match i {
        COLLIDER_PRESENT => all_but_one_in(draw(owner, i), 64),
        COLLIDER_BODY => all_but_one_in(draw(owner, i), 12),
        COLLIDER_BODY_NUMBER => body_number(owner, n),
        COLLIDER_LOWER..COLLIDER_FRICTION => place_word(case, n, owner, i),
        COLLIDER_FRICTION..COLLIDER_RESTITUTION => coefficient_word(
            owner,
            COLLIDER_FRICTION,
            past(i, COLLIDER_FRICTION),
        ),
        COLLIDER_RESTITUTION..COLLIDER_MARGIN => coefficient_word(
            owner,
            COLLIDER_RESTITUTION,
            past(i, COLLIDER_RESTITUTION),
        ),
        COLLIDER_MARGIN..COLLIDER_SENSOR => margin_word(
            owner,
            COLLIDER_MARGIN,
            past(i, COLLIDER_MARGIN),
        ),
        _ => one_in(draw(owner, COLLIDER_SENSOR), 12),
    }
}

pub fn fill_collider(colliders: &mut [u32], n: u32, case: u32) {
    fill_nth(colliders, n, COLLIDER_SIZE, |i| collider_word(case, n, i));
}
