// Prints which points pruning keeps and which impulses matching hands on, by number and by place, a line for each case. The file stdout
// holds for the same cases what avian's Rust gives, and by place what a model gives (tests/reference, contact_types_table).
#![tactic(auto)]

mod draws;
mod matching;
mod pruning;

use std::io;
use std::io::{BufWriter, Write};

fn main(rt: HostRuntime) -> io::Result<()> {
    let mut out = BufWriter::new(rt.alloc(), rt.stdout())?;
    pruning::print_cases(&mut out)?;
    matching::print_cases(&mut out, false)?;
    matching::print_cases(&mut out, true)?;
    out.flush()
}
