// Prints what the update of one pair gives, a line for each of 1,500 cases. The file stdout holds what avian's Rust gives for the
// same cases (tests/reference, update_table).
#![tactic(auto)]

mod cache;
mod record;
mod run_case;
mod table;

use std::io;
use std::io::{BufWriter, Write};

fn main(rt: HostRuntime) -> io::Result<()> {
    let mut out = BufWriter::new(rt.alloc(), rt.stdout())?;
    table::print_cases(&mut out)?;
    out.flush()
}
