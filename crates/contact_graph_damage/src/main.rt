// Damages a good graph and prints what the calls answer, a line for each damage. The file stdout holds what the table
// of refusals gives, by a plain test in Rust (tests/contact_graph.rs): 2 for damage of what is recorded, else none.
#![tactic(auto)]

mod case;
mod graph;
mod places;
mod recorded;
mod unrecorded;

use case::{Damage, print_damage, print_filled};
use std::io;
use std::io::{BufWriter, Write};

fn print_damages<W: Write>(out: &mut W, damages: &[Damage]) -> io::Result<()> {
    for &(name, changes) in damages {
        print_damage(out, name, changes)?;
    }
    Ok(())
}

fn main(rt: HostRuntime) -> io::Result<()> {
    let mut out = BufWriter::new(rt.alloc(), rt.stdout())?;
    print_damages(&mut out, &recorded::CAPACITIES)?;
    print_damages(&mut out, &recorded::NUMBERS)?;
    recorded::print_marks(&mut out)?;
    print_damages(&mut out, &recorded::COUNTS)?;
    print_damages(&mut out, &recorded::IDS)?;
    print_damages(&mut out, &recorded::PAIRS)?;
    for (name, changes, filled) in unrecorded::UNRECORDED {
        print_filled(&mut out, name, changes, filled)?;
    }
    out.flush()
}
