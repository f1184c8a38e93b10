// The draws that the cases are made of: by the key of what is made and the choice's number.
ghost use Rattle.std.specs.Prelude.{◌<◌};

// NaN, the infinities, the zeros, subnormal, huge and tiny numbers.
pub const AWKWARD: [u32; 16] = [
    0x7fc0_0000,
    0x7fc0_0000,
    0x7f80_0000,
    0xff80_0000,
    0x0000_0000,
    0x8000_0000,
    0x0000_0001,
    0x807f_ffff,
    0x0080_0000,
    0x7f7f_ffff,
    0xff7f_ffff,
    0x5e26_8890,
    0xde26_8890,
    0x1e3c_e508,
    0x4974_2400,
    0xb586_37bd,
];

// -2, -1, -0.5, 0, 0.5, 1, 2.
const COARSE: [u32; 7] = [
    0xc000_0000,
    0xbf80_0000,
    0xbf00_0000,
    0x0000_0000,
    0x3f00_0000,
    0x3f80_0000,
    0x4000_0000,
];

// Where a case's draws begin.
const SEED: u32 = 20262;

// The draws of other programs begin elsewhere.
pub fn seeded(seed: u32, key: u32, slot: u32) -> u32 {
    let a = slot
        .wrapping_mul(2654435769)
        .wrapping_add(key)
        .wrapping_add(seed);
    let b = a.wrapping_add(a >> 16).wrapping_mul(2246822519);
    let c = b.wrapping_add(b >> 15).wrapping_mul(3266489917);
    c.wrapping_add(c >> 16)
}

pub fn draw(key: u32, slot: u32) -> u32 {
    seeded(SEED, key, slot)
}

// The next of a sequence of random words (Marsaglia's xorshift).
pub fn xorshift(word: u32) -> u32 {
    let a = word ^ word << 13;
    let b = a ^ a >> 17;
    b ^ b << 5
}

// The j-th number from a base on.
pub fn slot(base: u32, j: u32) -> u32 {
    base.wrapping_add(j)
}

// How far i is past a base.
pub fn past(i: u32, base: u32) -> u32 {
    i.saturating_sub(base)
}

// One of a table.
pub fn pick<T: Copy, const N: usize>(table: &[T; N], d: u32) -> T
    requires { 0 < N }
{
    table[d as usize % N]
}

// 1 where the draw d is a multiple of n.
pub fn one_in(d: u32, n: u32) -> u32
    requires { 0 < n }
{
    u32::from(d % n == 0)
}

// 0 where the draw d is a multiple of n.
pub fn all_but_one_in(d: u32, n: u32) -> u32
    requires { 0 < n }
{
    u32::from(d % n != 0)
}

// -2, -1, -0.5, 0, 0.5, 1 or 2.
pub fn coarse(d: u32) -> u32 {
    pick(&COARSE, d)
}

// Of either sign, from 2^-7 to 2.
pub fn common(d: u32) -> u32 {
    d / 0x8000_0000 * 0x8000_0000 + (120 + d / 0x80_0000 % 8) * 0x80_0000 + d % 0x80_0000
}

// What a case's floats are.
#[derive(Clone, Copy, Debug, PartialEq, Eq)]
pub enum Floats {
    Coarse,
    Common,
    // One in eight is awkward, else common.
    Awkward,
}

// By their numbers.
impl From<u32> for Floats {
    fn from(style: u32) -> Self {
        match style {
            0 => Floats::Coarse,
            1 => Floats::Common,
            _ => Floats::Awkward,
        }
    }
}

pub fn style(case: u32) -> Floats {
    match draw(case, 1) % 8 {
        0 => Floats::Awkward,
        1..=4 => Floats::Coarse,
        _ => Floats::Common,
    }
}

fn awkward(d: u32) -> u32 {
    if d % 8 == 0 {
        pick(&AWKWARD, d / 8)
    } else {
        common(d)
    }
}

pub fn float<S: Into<Floats>>(owner: u32, slot: u32, style: S) -> u32 {
    let d = draw(owner, slot);
    match style.into() {
        Floats::Coarse => coarse(d),
        Floats::Common => common(d),
        Floats::Awkward => awkward(d),
    }
}
