// Plays 300 steps of a stack of eight boxes that settles on a static floor, at capacity 64. A line for every ten steps: the number
// of steps; listed pairs; those that touch; events, changes and contacts recycled since the last line; hashes of what the graph
// records, of the events and of the changes since the last line. The file stdout holds what avian's Rust gives for the same stack:
// cd tests/reference && cargo run --release --offline --bin settling_stack > ../../crates/settling_stack/stdout
#![tactic(auto)]

mod additions;
mod boxes;
mod dealt;
mod impulses;
mod moves;
mod places;
mod play;
mod proposed;
mod recorded;

use std::io;
use std::io::{BufWriter, Write};

fn main(rt: HostRuntime) -> io::Result<()> {
    let mut out = BufWriter::new(rt.alloc(), rt.stdout())?;
    play::print_stack(&mut out)?;
    out.flush()
}
