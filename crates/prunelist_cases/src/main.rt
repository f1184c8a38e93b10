// Prints for each file of data/ its name and the answer to it. The file stdout was not made by this program:
// tests/prunelist_cases.py made it, and the files of data/, from the specification alone ('Prune listing', 'Matching and pruning').
#![tactic(auto)]

use prune_answer::answer::ANSWER_LENGTH;
use prune_answer::output::read_answer;
use std::fs::File;
use std::io;
use std::rt::Files;

const NAMES: [&str; 21] = [
    "c1",
    "c2_five_equal",
    "c3_two_equal",
    "c4_nan",
    "four_points",
    "most_points",
    "too_many_points",
    "33_points",
    "normal_alone",
    "lower_case",
    "last_feed_missing",
    "unreadable_after_33",
    "carriage_return",
    "empty",
    "empty_line",
    "extra_field",
    "seven_digits",
    "space",
    "two_normals",
    "no_normal",
    "too_long",
];

// A file that cannot be opened is named on standard error, and passed over. A name is printed once its file is read.
fn print_case<R: Files + AllocGlobal + Print + Eprint>(rt: &R, name: &str) -> io::Result<()> {
    let file = match File::open(rt, name) {
        Ok(file) => file,
        Err(e) => return eprintln!(rt; "{name}: {e}"),
    };
    let mut lines = [0u8; ANSWER_LENGTH];
    let written = read_answer(rt.alloc(), file, &mut lines)?;
    println!(rt; "{name}")?;
    rt.write_all(&lines[..written])
}

fn main(rt: HostRuntime) -> io::Result<()> {
    for name in NAMES {
        print_case(&rt, name)?;
    }
    Ok(())
}
