// One damage: the answers of `look_up`, `add` and `remove`, and whether every word is as it was before them.
use crate::graph::{build, request};
use crate::places::{GRAPH_LENGTH, LARGEST};
use case_draws::line::{print_added, print_answer, print_done};
use case_draws::places::put;
use contact_graph::add::add;
use contact_graph::call::ContactEdge;
use contact_graph::look_up::look_up;
use contact_graph::remove::remove;
use contact_types::contact_id::ContactId;
use std::io::Write;
use std::ops::Range;
use std::{fmt, io};

// A name, and places and what they become.
pub type Damage = (&'static str, &'static [(u32, u32)]);

// And the places that become the largest word.
pub type Filled = (&'static str, &'static [(u32, u32)], Range<u32>);

#[derive(Clone, Copy)]
struct Edge(ContactEdge);

impl fmt::Display for Edge {
    fn fmt<W: fmt::Write>(&self, f: &mut fmt::Formatter<W>) -> fmt::Result {
        write!(f, "edge\t{}\t{}", self.0.collider1, self.0.collider2)
    }
}

fn print_answers<W: Write>(out: &mut W, graph: &mut [u32]) -> io::Result<()> {
    print_answer(out, look_up(graph, ContactId(0)).map(|e| Edge(e)))?;
    print_added(out, add(graph, request(70, 80, 1)))?;
    print_done(out, remove(graph, ContactId(0)))
}

fn damage(graph: &mut [u32], changes: &[(u32, u32)], filled: Range<u32>) {
    for &(at, word) in changes {
        put(graph, at, word);
    }
    for at in filled {
        put(graph, at, LARGEST);
    }
}

pub fn print_filled<W: Write>(
    out: &mut W,
    name: &str,
    changes: &[(u32, u32)],
    filled: Range<u32>,
) -> io::Result<()> {
    let mut graph = [0u32; GRAPH_LENGTH];
    build(&mut graph);
    damage(&mut graph, changes, filled);
    let before = graph;
    write!(out, "{name}")?;
    print_answers(out, &mut graph)?;
    let same = if graph == before { "same" } else { "changed" };
    writeln!(out, "\t{same}")
}

pub fn print_damage<W: Write>(out: &mut W, name: &str, changes: &[(u32, u32)]) -> io::Result<()> {
    print_filled(out, name, changes, 0..0)
}
