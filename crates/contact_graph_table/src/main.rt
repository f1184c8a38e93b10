// Prints the answers of the graph's calls and what the graph then records, a line for each call. The file stdout
// holds what a plain model in Rust gives for the same calls (tests/contact_graph.rs).
#![tactic(auto)]

mod calls;
mod draws;
mod recorded;
mod sizes;

use std::io;
use std::io::{BufWriter, Write};

fn main(rt: HostRuntime) -> io::Result<()> {
    let mut out = BufWriter::new(rt.alloc(), rt.stdout())?;
    calls::print_graph(&mut out)?;
    sizes::print_refused(&mut out)?;
    sizes::print_too_large(&mut out)?;
    sizes::print_full(&mut out)?;
    out.flush()
}
