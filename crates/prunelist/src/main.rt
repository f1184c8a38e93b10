// Reads a listing of points from standard input, and writes the numbers of those that pruning keeps,
// or a refusal's: the specification, 'Prune listing'. The files stdin and stdout are its case C1.
#![tactic(auto)]

use prune_answer::output::print_read;
use std::io;

fn main(rt: HostRuntime) -> io::Result<()> {
    print_read(rt.alloc(), rt.stdin(), &mut rt.stdout())
}
