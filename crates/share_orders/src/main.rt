// Plays 40 lists of additions and steps on a graph of capacity 8. Each step is made nine times, by nine different shares, on
// copies of the same words. A line for each list: its number, the steps accepted, the contacts updated, and whether the nine left
// the same words; where they did not: the step, the share and the place of the first word that differs. The last line has the
// totals: lists, steps accepted, contacts updated, events, changes, contacts recycled, and lists with the same words.
#![tactic(auto)]

mod additions;
mod differences;
mod draws;
mod impulses;
mod left;
mod lists;
mod orders;
mod places;
mod proposed;
mod world;

use std::io;
use std::io::{BufWriter, Write};

fn main(rt: HostRuntime) -> io::Result<()> {
    let mut out = BufWriter::new(rt.alloc(), rt.stdout())?;
    lists::print_lists(&mut out)?;
    out.flush()
}
