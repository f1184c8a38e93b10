// A listing that is read, and its answer written: what `prunelist` and `prunelist_cases` share.
ghost use Rattle.std.specs.Prelude.{◌≡◌, ℕ, List, IfOk, OnErr};
ghost use Rattle.prune_answer.specs.Answer.{Answered};

use crate::answer::{ANSWER_LENGTH, answer};
use prune_listing::reader::LONGEST;
use std::alloc::Global;
use std::io;
use std::io::{Read, Write};

// One byte more than the longest listing: a text that fills it is too long.
const MOST_READ: u64 = LONGEST as u64 + 1;

// The answer to the listing that is read, at the front of the lines, and how many of their bytes it takes.
pub fn read_answer<R: Read + Drop>(
    alloc: Global,
    from: R,
    lines: &mut [u8; ANSWER_LENGTH],
) -> io::Result<usize>
    ensures answered { IfOk result (λ n. (text : List ℕ) × Answered text lines.old lines.new n) }
    ensures unread { OnErr result (lines.new ≡ lines.old) }
{
    let mut text = Vec::new(alloc);
    from.take(MOST_READ).read_to_end(&mut text)?;
    Ok(answer(text.as_slice(), lines))
}

pub fn print_read<R: Read + Drop, W: Write>(alloc: Global, from: R, out: &mut W) -> io::Result<()> {
    let mut lines = [0u8; ANSWER_LENGTH];
    let written = read_answer(alloc, from, &mut lines)?;
    out.write_all(&lines[..written])
}
