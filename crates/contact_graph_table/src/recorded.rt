// What a graph records: the ids given, the numbers listed and free, the listed ids and the free ones in order, and a sum
// over the listed contacts' records. A word behind a mark of 0 is not recorded: the sum has 0 for it.
use case_draws::graph::{free_ids, listed_ids, record};
use case_draws::numbers::{
    CONTACT_BODY1, CONTACT_BODY1_NUMBER, CONTACT_BODY2, CONTACT_BODY2_NUMBER, CONTACT_CACHE,
    CONTACT_CACHED, CONTACT_FIRST_MANIFOLD, CONTACT_MANIFOLDS, GRAPH_GIVEN,
};
use case_draws::places::word;
use std::io;
use std::io::Write;

// The k-th word of a record, or 0 where that records nothing.
fn recorded_word(record: &[u32], k: u32) -> u32 {
    let mark = match k {
        CONTACT_BODY1_NUMBER => word(record, CONTACT_BODY1),
        CONTACT_BODY2_NUMBER => word(record, CONTACT_BODY2),
        CONTACT_CACHED..CONTACT_MANIFOLDS => word(record, CONTACT_CACHE),
        _ => 1,
    };
    if mark == 0 { 0 } else { word(record, k) }
}

// Of each record as far as the number of manifolds.
fn records_sum(graph: &[u32]) -> u32 {
    let mut sum: u32 = 0;
    for &id in listed_ids(graph) {
        let record = record(graph, id);
        for k in 0..CONTACT_FIRST_MANIFOLD {
            sum = sum
                .wrapping_add(recorded_word(record, k))
                .wrapping_mul(16777619)
                .wrapping_add(1);
        }
    }
    sum
}

fn print_ids<W: Write>(out: &mut W, ids: &[u32]) -> io::Result<()> {
    for id in ids {
        write!(out, "\t{id}")?;
    }
    Ok(())
}

// The end of a line.
pub fn print_recorded<W: Write>(out: &mut W, graph: &[u32]) -> io::Result<()> {
    let given = word(graph, GRAPH_GIVEN);
    let listed = listed_ids(graph);
    let free = free_ids(graph);
    write!(out, "\tgraph\t{given}\t{}\t{}", listed.len(), free.len())?;
    write!(out, "\tlist")?;
    print_ids(out, listed)?;
    write!(out, "\tfree")?;
    print_ids(out, free)?;
    writeln!(out, "\trecords\t{}", records_sum(graph))
}
