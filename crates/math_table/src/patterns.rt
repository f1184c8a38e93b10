// Awkward and ordinary floats, and the vectors and quaternions made of them: the cases go through
// the table with another stride for each part.
use case_draws::draws::{pick, slot};
use math::bits::float_of;
use math::quat::Quat;
use math::vec::Vec3;
use std::io;
use std::io::Write;

// The first twelve are awkward: NaN, the infinities, the largest and the lowest, the zeros, two
// subnormal numbers, the least normal one, 1e-20 and 3e18.
pub const PATTERNS: [u32; 31] = [
    0x7fc0_0000,
    0x7f80_0000,
    0xff80_0000,
    0x7f7f_ffff,
    0xff7f_ffff,
    0x0000_0000,
    0x8000_0000,
    0x0000_0001,
    0x807f_ffff,
    0x0080_0000,
    0x1e3c_e508,
    0x5e26_8890,
    0x3f80_0000,
    0xbf80_0000,
    0x3dcc_cccd,
    0x3eaa_aaab,
    0x4020_0000,
    0xc0e8_0000,
    0x42f6_e979,
    0xbf19_999a,
    0x3f4c_cccd,
    0x3f35_04f3,
    0x4b7f_ffff,
    0x3f80_0001,
    0x3f7f_ffff,
    0xbe99_999a,
    0x40ad_d3c3,
    0xbfd9_999a,
    0x4049_0fdb,
    0xc02d_f854,
    0xc228_c7ae,
];

// The first pattern with an exponent's field.
pub fn first_with(field: u8) -> u32 {
    u32::from(field) << 23
}

// A float's pattern and the two beside it.
pub fn beside(bits: u32) -> [u32; 3] {
    [bits.wrapping_sub(1), bits, bits.wrapping_add(1)]
}

// A tame case leaves the awkward patterns out.
#[derive(Clone, Copy)]
pub struct Case {
    number: u32,
    tame: bool,
}

impl Case {
    pub fn value(self, stride: u32) -> f32 {
        let k = slot(self.number, stride).wrapping_mul(stride);
        let k = if self.tame { 12 + k % 19 } else { k };
        float_of(pick(&PATTERNS, k))
    }

    pub fn vector(self, stride: u32) -> Vec3 {
        Vec3 {
            x: self.value(stride),
            y: self.value(slot(stride, 1)),
            z: self.value(slot(stride, 2)),
        }
    }

    pub fn quat(self, stride: u32) -> Quat {
        Quat {
            x: self.value(stride),
            y: self.value(slot(stride, 2)),
            z: self.value(slot(stride, 3)),
            w: self.value(slot(stride, 7)),
        }
    }
}

// Each number with every pattern, and tame.
pub fn print_cases<W: Write, F: Fn(&mut W, Case) -> io::Result<()>>(
    out: &mut W,
    print_case: F,
) -> io::Result<()>
    requires { F.IsAlwaysCallable print_case }
{
    for number in 0..40 {
        for tame in [false, true] {
            print_case(out, Case { number, tame })?;
        }
    }
    Ok(())
}
