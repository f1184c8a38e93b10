// By how many last places roots are corrected. At every exponent: for the first eight significands
// and the last eight, for squares and the floats beside them, and for random ones. And for one even
// exponent and one odd, for every float: those from 1 up to 4.
use crate::line::print_line;
use crate::patterns::{beside, first_with};
use case_draws::draws::xorshift;
use math::bits::{bits_of, float_of};
use math::root::{guess, root};
use std::io;
use std::io::Write;

// The most last places that a root may be corrected by.
const MOST: u32 = 2;

// How many guesses lie below the root's digits, on them and above them, by MOST at most; how many are
// further off; and the most that one is off.
#[derive(Clone, Copy, Default)]
struct Tally {
    below: u32,
    on: u32,
    above: u32,
    beyond: u32,
    greatest: u32,
}

impl Tally {
    fn count(&mut self, bits: u32) {
        let up = correction(bits);
        let down = up.wrapping_neg();
        let off = up.min(down);
        self.greatest = self.greatest.max(off);
        let counted = if off == 0 {
            &mut self.on
        } else if off > MOST {
            &mut self.beyond
        } else if up < down {
            &mut self.below
        } else {
            &mut self.above
        };
        *counted = counted.wrapping_add(1);
    }

    // And the floats beside them.
    fn count_squares(&mut self, field: u8) {
        for n in 2049..4096 {
            for bits in beside(square(field, n)) {
                self.count(bits);
            }
        }
    }

    fn count_random(&mut self, field: u8) {
        let mut word = xorshift(0x9e37_79b9 ^ u32::from(field));
        for k in 0..4096 {
            word = xorshift(word);
            self.count(drawn(field, word, k));
        }
    }

    // `count` floats, from the pattern `first` on.
    fn count_from(&mut self, first: u32, count: u32) {
        for k in 0..count {
            self.count(first.wrapping_add(k));
        }
    }

    fn print<W: Write>(&self, out: &mut W, name: &str, field: u8) -> io::Result<()> {
        print_line(
            out,
            name,
            &[
                u32::from(field),
                self.below,
                self.on,
                self.above,
                self.beyond,
                self.greatest,
            ],
        )
    }
}

// The last places from the guess up to the digits of the root of the normal number with pattern b,
// modulo 2^32. The root's pattern is its digits and the exponent's part, which is one short.
fn last_places(b: u32, pattern: u32) -> u32 {
    let exponent = (b / 0x80_0000 + 125) / 2 * 0x80_0000;
    pattern.wrapping_sub(exponent).wrapping_sub(guess(b))
}

// The root of a subnormal number is found from 2^24 times the number, whose root has an exponent that
// is 12 more.
fn correction(bits: u32) -> u32 {
    let x = float_of(bits);
    let pattern = bits_of(root(x));
    if bits < 0x80_0000 {
        let raised = bits_of(x * 16777216.0);
        return last_places(raised, pattern.wrapping_add(12 * 0x80_0000));
    }
    last_places(bits, pattern)
}

// The float of an exponent's field with the significand of a 12-bit number's square: it is a square
// at the exponents of one parity, and twice a square at the others. The subnormal number with pattern
// 2 * k * k is the square of 2k units of 2^-75.
fn square(field: u8, n: u16) -> u32 {
    if field == 0 {
        let k = u32::from(n) % 2048;
        return k * k * 2;
    }
    let x = f32::from(n);
    first_with(field) | bits_of(x * x) % 0x80_0000
}

// A random significand; for subnormal numbers, of each length in turn.
fn drawn(field: u8, word: u32, k: u32) -> u32 {
    if field == 0 {
        return (word % 0x80_0000 | 0x40_0000) >> k % 23;
    }
    first_with(field) | word % 0x80_0000
}

// The first eight floats of an exponent, zero left out, the last eight, squares and random ones.
fn print_some<W: Write>(out: &mut W, field: u8) -> io::Result<u32> {
    let first = first_with(field);
    let mut tally = Tally::default();
    tally.count_from(first.max(1), 8);
    tally.count_from(first | 0x7f_fff8, 8);
    tally.count_squares(field);
    tally.count_random(field);
    tally.print(out, "corrected", field)?;
    Ok(tally.greatest)
}

fn print_all<W: Write>(out: &mut W, field: u8) -> io::Result<u32> {
    let mut tally = Tally::default();
    tally.count_from(first_with(field), 0x80_0000);
    tally.print(out, "corrected all", field)?;
    Ok(tally.greatest)
}

// A line for each exponent's field, and one for the most that a root was corrected by. Above MOST
// that line has another name.
pub fn print_corrections<W: Write>(out: &mut W) -> io::Result<()> {
    let mut greatest = print_all(out, 127)?.max(print_all(out, 128)?);
    for field in 0..255 {
        greatest = greatest.max(print_some(out, field)?);
    }
    let name = if greatest > MOST {
        "corrected by too much"
    } else {
        "corrected by at most"
    };
    print_line(out, name, &[greatest])
}
