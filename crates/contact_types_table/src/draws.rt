// The draws that the cases are made of: by the key of what is made and the choice's number.
use case_draws::draws::{AWKWARD, coarse, common, pick, seeded};
use math::bits::float_of;
use math::vec::Vec3;

const SEED: u32 = 20260;

pub fn draw(key: u32, slot: u32) -> u32 {
    seeded(SEED, key, slot)
}

// What kind of number is drawn.
#[derive(Clone, Copy, Debug, PartialEq, Eq)]
pub enum Kind {
    One,
    Coarse,
    Common,
    // One in six is awkward, else common.
    AtTimesAwkward,
    Awkward,
}

impl Kind {
    pub const ALL: [Self; 5] = [
        Kind::One,
        Kind::Coarse,
        Kind::Common,
        Kind::AtTimesAwkward,
        Kind::Awkward,
    ];
}

// The second is here a NaN that is not the one written.
fn awkward(d: u32) -> u32 {
    match d as usize % AWKWARD.len() {
        1 => 0xff80_0001,
        _ => pick(&AWKWARD, d),
    }
}

fn pattern(d: u32, kind: Kind) -> u32 {
    match kind {
        Kind::One => 0x3f80_0000,
        Kind::Coarse => coarse(d),
        Kind::AtTimesAwkward if d % 6 == 0 => awkward(d / 6),
        Kind::Common | Kind::AtTimesAwkward => common(d),
        Kind::Awkward => awkward(d),
    }
}

pub fn number(owner: u32, slot: u32, kind: Kind) -> f32 {
    float_of(pattern(draw(owner, slot), kind))
}

pub fn vector(key: u32, kind: Kind) -> Vec3 {
    Vec3 {
        x: number(key, 1, kind),
        y: number(key, 2, kind),
        z: number(key, 3, kind),
    }
}
