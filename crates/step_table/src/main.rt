// Prints what lists of additions, steps and impulses give, each list on one contact graph, a line for each call. The file stdout
// holds what avian's Rust gives for the same lists (tests/reference, step_table).
#![tactic(auto)]

mod bodies;
mod calls;
mod choices;
mod given;
mod graph;
mod impulses;
mod lists;
mod proposal_draws;
mod request;
mod share_draws;
mod written;

use std::io;
use std::io::{BufWriter, Write};

fn main(rt: HostRuntime) -> io::Result<()> {
    let mut out = BufWriter::new(rt.alloc(), rt.stdout())?;
    lists::print_lists(&mut out)?;
    out.flush()
}
