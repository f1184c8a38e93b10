// Maximum and minimum of every pair of a dozen floats.
use crate::line::print_line;
use math::bits::{bits_of, float_of};
use math::choose::{maximum, minimum};
use std::io;
use std::io::Write;

// NaN, the infinities, the zeros, 1 and -1, the least and the largest subnormal, the largest and the lowest.
const OPERANDS: [u32; 12] = [
    0x7fc0_0000,
    0x7f80_0000,
    0xff80_0000,
    0x0000_0000,
    0x8000_0000,
    0x3f80_0000,
    0xbf80_0000,
    0x0000_0001,
    0x8000_0001,
    0x007f_ffff,
    0x7f7f_ffff,
    0xff7f_ffff,
];

fn print_choice<W: Write>(out: &mut W, a: u32, b: u32) -> io::Result<()> {
    let larger = maximum(float_of(a), float_of(b));
    print_line(out, "maximum", &[a, b, bits_of(larger)])?;
    let smaller = minimum(float_of(a), float_of(b));
    print_line(out, "minimum", &[a, b, bits_of(smaller)])
}

pub fn print_choices<W: Write>(out: &mut W) -> io::Result<()> {
    for a in OPERANDS {
        for b in OPERANDS {
            print_choice(out, a, b)?;
        }
    }
    Ok(())
}
