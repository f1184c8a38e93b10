// The cases: each is drawn into the rows, updated, and printed as its number, the status bit, recycled or not, the reported
// distance, the number of manifolds, and a hash of what the record then records.
use crate::run_case::Case;
use case_draws::draws::draw;
use case_draws::hash::{Hash, manifold_count};
use contact_update::record::Outcome;
use math::bits::bits_of;
use std::io;
use std::io::Write;

fn print_outcome<W: Write>(out: &mut W, outcome: Outcome, record: &[u32]) -> io::Result<()> {
    let bit = u32::from(outcome.bit);
    let recycled = u32::from(outcome.recycled);
    let distance = bits_of(outcome.max_contact_distance);
    let count = manifold_count(record);
    let hash = Hash::of_record(record);
    write!(out, "\t{bit}\t{recycled}\t{distance:08X}\t{count}\t{hash}")
}

pub fn print_cases<W: Write>(out: &mut W) -> io::Result<()> {
    let mut case = Case::new();
    for c in 0..1500 {
        case.draw(draw(c, 0));
        write!(out, "{c}")?;
        match case.update() {
            Some(outcome) => print_outcome(out, outcome, &case.record)?,
            None => write!(out, "\trefused")?,
        }
        writeln!(out)?;
    }
    Ok(())
}
