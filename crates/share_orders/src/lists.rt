// The lists: each lays out a graph of capacity 8 and takes 12 steps, with additions and impulses between them.
use crate::additions::add_pairs;
use crate::differences::{Difference, run_all};
use crate::draws::draw;
use crate::impulses::write_impulses;
use crate::left::Left;
use crate::places::{CAPACITY, GRAPH_LENGTH};
use crate::world::World;
use case_draws::draws::slot;
use case_draws::graph::listed;
use contact_graph::lay_out::lay_out;
use std::io;
use std::io::Write;

const LISTS: u32 = 40;

// Of steps: those accepted, contacts updated, events, changes, contacts recycled.
#[derive(Clone, Copy, Default)]
struct Counts {
    accepted: u32,
    updated: u32,
    events: u32,
    changes: u32,
    recycled: u32,
}

impl Counts {
    fn add(&mut self, more: Counts) {
        self.accepted = self.accepted.wrapping_add(more.accepted);
        self.updated = self.updated.wrapping_add(more.updated);
        self.events = self.events.wrapping_add(more.events);
        self.changes = self.changes.wrapping_add(more.changes);
        self.recycled = self.recycled.wrapping_add(more.recycled);
    }

    // A step that began with so many contacts.
    fn add_step(&mut self, left: &Left, listed: u32) {
        if let Ok(report) = left.answer {
            self.add(Counts {
                accepted: 1,
                updated: listed,
                events: report.events,
                changes: report.changes,
                recycled: report.recycled,
            });
        }
    }
}

// The counts, and the first difference.
fn play_list(key: u32) -> (Counts, Option<Difference>) {
    let mut world = World::new();
    world.start(key);
    let mut graph = [0; GRAPH_LENGTH];
    let mut left = Left::before(&graph);
    let mut counts = Counts::default();
    let mut difference = None;
    let _ = lay_out(&mut graph, CAPACITY);
    for step in 0..12 {
        let own = draw(key, slot(1000, step));
        add_pairs(&mut graph, own, if step == 0 { 8 } else { 3 });
        write_impulses(&mut graph, own);
        world.change(&graph, own);
        let count = listed(&graph);
        let found = run_all(&world, &graph, step, own, &mut left);
        counts.add_step(&left, count);
        difference = difference.or(found);
        graph = left.graph;
    }
    (counts, difference)
}

fn print_list<W: Write>(
    out: &mut W,
    list: u32,
    counts: Counts,
    difference: Option<Difference>,
) -> io::Result<()> {
    write!(out, "{list}\t{}\t{}", counts.accepted, counts.updated)?;
    match difference {
        Some(difference) => writeln!(out, "\t{difference}"),
        None => writeln!(out, "\tsame"),
    }
}

pub fn print_lists<W: Write>(out: &mut W) -> io::Result<()> {
    let mut totals = Counts::default();
    let mut same: u32 = 0;
    for list in 0..LISTS {
        let (counts, difference) = play_list(draw(list, 0));
        print_list(out, list, counts, difference)?;
        totals.add(counts);
        same = same.wrapping_add(u32::from(difference.is_none()));
    }
    write!(out, "total\t{LISTS}\t{}", totals.accepted)?;
    write!(out, "\t{}\t{}", totals.updated, totals.events)?;
    writeln!(out, "\t{}\t{}\t{same}", totals.changes, totals.recycled)
}
