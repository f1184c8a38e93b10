// Roots: at every exponent, around the squares of the 12-bit numbers, and of zeros, infinities, NaNs
// and negative numbers.
use crate::line::print_line;
use crate::patterns::{beside, first_with};
use math::bits::{bits_of, float_of};
use math::root::root;
use std::io;
use std::io::Write;

const SIGNIFICANDS: [u32; 10] = [
    0x00_0000, 0x00_0001, 0x00_0002, 0x40_0000, 0x7f_ffff, 0x7f_fffe, 0x2a_aaaa, 0x55_5555,
    0x35_04f3, 0x35_04f4,
];

// Zeros, infinities, NaNs and negative numbers.
const SPECIALS: [u32; 18] = [
    0x0000_0000,
    0x8000_0000,
    0x7f80_0000,
    0xff80_0000,
    0x7fc0_0000,
    0x7f80_0001,
    0x7fbf_ffff,
    0x7fff_ffff,
    0xffc0_0000,
    0xff80_0001,
    0xffff_ffff,
    0x8000_0001,
    0x807f_ffff,
    0x8080_0000,
    0xbf80_0000,
    0xc000_0000,
    0xbdcc_cccd,
    0xff7f_ffff,
];

fn print_root<W: Write>(out: &mut W, bits: u32) -> io::Result<()> {
    print_line(out, "root", &[bits, bits_of(root(float_of(bits)))])
}

fn print_field<W: Write>(out: &mut W, field: u8) -> io::Result<()> {
    for significand in SIGNIFICANDS {
        print_root(out, first_with(field) | significand)?;
    }
    Ok(())
}

pub fn print_fields<W: Write>(out: &mut W) -> io::Result<()> {
    for field in 0..255 {
        print_field(out, field)?;
    }
    Ok(())
}

// The square of a 12-bit number, and the floats beside it.
fn print_square<W: Write>(out: &mut W, n: u16) -> io::Result<()> {
    let x = f32::from(n);
    for bits in beside(bits_of(x * x)) {
        print_root(out, bits)?;
    }
    Ok(())
}

pub fn print_squares<W: Write>(out: &mut W) -> io::Result<()> {
    for n in 2048..4096 {
        print_square(out, n)?;
    }
    Ok(())
}

pub fn print_specials<W: Write>(out: &mut W) -> io::Result<()> {
    for special in SPECIALS {
        print_root(out, special)?;
    }
    Ok(())
}
