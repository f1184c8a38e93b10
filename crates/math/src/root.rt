// The square root of a float, correctly rounded: an estimate in floats, corrected in whole numbers.
#![tactic(auto, unfolding(crate::specs::Estimate::estimate, crate::specs::Estimate::guess))]

ghost use Rattle.std.specs.Prelude.{◌≡◌, ◌-◌, ◌*◌, ◌/◌, ◌^◌, ◌<◌, ◌≤◌, from_bits};
ghost use Rattle.std.specs.Float.{binary32};
ghost use Rattle.math.specs.Root.{IsNearest, nearest_root, root};
ghost use Rattle.math.specs.Estimate.{IsNormal, estimate, guess, stepped, leading, squared};

use crate::bits::{bits_of, float_of};

// An estimate of the root of the normal number with pattern b: half the pattern halves the exponent,
// and then there are two of Heron's steps. The mean of y and x / y is never below the root, so the
// first takes a little off.
fn estimate(b: u32) -> f32
    ensures { result ≡ estimate b }
{
    let x = float_of(b);
    let y = float_of(b / 2 + 0x1fbb_4f2e);
    let z = (y + x / y) * 0.49985;
    (z + x / z) * 0.5
}

// What the root's digits are corrected from: the estimate's pattern, less the exponent's part of the
// root's pattern. It is held to 2^24, which no number of 24 digits reaches, whatever the estimate is.
pub fn guess(b: u32) -> u32
    ensures { result ≡ guess b }
{
    let exponent = (b / 0x80_0000 + 125) / 2 * 0x80_0000;
    bits_of(estimate(b)).wrapping_sub(exponent).min(0x100_0000)
}

// g, or one more or one less, towards the number nearest to the root of m. The tests are added as
// numbers, so there is no branch.
fn step_towards(m: u64, g: u64) -> u64
    requires { (0 < m) × (m < 2 ^ 48) × (g ≤ 2 ^ 24) }
    ensures { result ≡ stepped m g }
{
    g + (g * g + g < m) as u64 - (m + g <= g * g) as u64
}

// The whole number nearest to the root of m, from a guess g. Every guess up to 2^24 will do. From one
// that is at most one off neither loop is entered, and the table of `math_table` has no other.
#[tactic(auto, using(crate::proofs::CorrectedLaws::still_above, crate::proofs::CorrectedLaws::still_below))]
fn corrected(m: u64, g: u64) -> u64
    requires { (0 < m) × (m < 2 ^ 48) × (g ≤ 2 ^ 24) }
    ensures { IsNearest m result }
{
    let mut q = step_towards(m, g);
    while m + q <= q * q {
        q -= 1;
    }
    while q * q + q < m {
        q += 1;
    }
    q
}

// The 24 digits of the root of the normal number with pattern b. Its own 24 are moved up by 23 places
// or 24, so that what is left of the exponent is even.
fn root_digits(b: u32) -> u32
    ensures { IsNearest (squared b) result }
{
    let places = 24 - b / 0x80_0000 % 2;
    corrected(
        ((b % 0x80_0000 + 0x80_0000) as u64) << places,
        guess(b) as u64,
    ) as u32
}

// The first of the 24 digits adds one to the exponent's field, which is one short before.
fn root_normal(b: u32) -> u32
    requires { IsNormal b }
    ensures { from_bits binary32 result ≡ nearest_root binary32 (leading b * 2 ^ (b / 2 ^ 23 - 1) * 2 ^ 149) }
{
    (b / 0x80_0000 + 125) / 2 * 0x80_0000 + root_digits(b)
}

// The pattern of 2^24 times the number m * 2^-149, which is normal.
fn normalised(m: u32) -> u32
    requires { (0 < m) × (m < 2 ^ 23) }
    ensures { IsNormal result × (leading result * 2 ^ (result / 2 ^ 23 - 1) ≡ m * 2 ^ 24) }
{
    let places = m.leading_zeros() - 8;
    (24 - places) * 0x80_0000 + (m << places)
}

// 2^12 times the root is the root of 2^24 times the number.
fn root_subnormal(m: u32) -> u32
    requires { (0 < m) × (m < 2 ^ 23) }
    ensures { from_bits binary32 result ≡ nearest_root binary32 (m * 2 ^ 149) }
{
    let b = normalised(m);
    (b / 0x80_0000 + 101) / 2 * 0x80_0000 + root_digits(b)
}

// A zero is its own root, and a negative number has none.
pub fn root(x: f32) -> f32
    ensures { result ≡ root x }
{
    let b = bits_of(x);
    if (0x80_0000 <= b) & (b < 0x7f80_0000) {
        return float_of(root_normal(b));
    }
    if x != x {
        return x;
    }
    if x == 0.0 {
        return x;
    }
    if x < 0.0 {
        return 0.0 / 0.0;
    }
    if x == 1.0 / 0.0 {
        return x;
    }
    float_of(root_subnormal(b))
}
