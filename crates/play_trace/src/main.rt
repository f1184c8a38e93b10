// Reads a trace from standard input and prints what it plays, at capacity 4: docs/TRACES.md. A trace of more than 65,536 bytes prints 1 alone.
// The files stdin and stdout are the example of that document.
#![tactic(auto)]

use std::io;
use trace_output::print_read;

fn main(rt: HostRuntime) -> io::Result<()> {
    print_read(rt.alloc(), rt.stdin(), &mut rt.stdout())
}
