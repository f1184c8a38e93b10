// Prints a table of what the float leaves give, a line for each result, floats as the hex digits of
// their bits; and for each exponent a line of counts, how far guesses lie from the root's digits. The
// file stdout holds what the hardware's floats give (tests/math_table.c).
#![tactic(auto)]

mod choices;
mod corrections;
mod line;
mod patterns;
mod quats;
mod roots;
mod vectors;

use patterns::print_cases;
use std::io;
use std::io::{BufWriter, Write};

fn main(rt: HostRuntime) -> io::Result<()> {
    let mut out = BufWriter::new(rt.alloc(), rt.stdout())?;
    roots::print_fields(&mut out)?;
    roots::print_squares(&mut out)?;
    roots::print_specials(&mut out)?;
    corrections::print_corrections(&mut out)?;
    choices::print_choices(&mut out)?;
    print_cases(&mut out, |out, case| vectors::print_case(out, case))?;
    vectors::print_lengths_kept(&mut out)?;
    print_cases(&mut out, |out, case| quats::print_case(out, case))?;
    out.flush()
}
