// Capacities and lengths that are refused, and a graph of the largest capacity filled to the last contact.
use case_draws::line::{print_added, print_done};
use case_draws::numbers::{GRAPH_CONTACT_SIZE, GRAPH_LIST, MOST_CONTACTS};
use contact_graph::add::add;
use contact_graph::call::Request;
use contact_graph::lay_out::lay_out;
use layout::limits::COLLIDERS;
use std::io;
use std::io::Write;

// The graph's lengths for no contact, for 1, for the most, and for one more than these.
const FOR_NONE: usize = GRAPH_LIST as usize;

const FOR_ONE: usize = (GRAPH_LIST + GRAPH_CONTACT_SIZE) as usize;

const FOR_MOST: usize = (GRAPH_LIST + GRAPH_CONTACT_SIZE * MOST_CONTACTS) as usize;

const TOO_MANY_CONTACTS: u32 = MOST_CONTACTS + 1;

const FOR_TOO_MANY: usize = (GRAPH_LIST + GRAPH_CONTACT_SIZE * TOO_MANY_CONTACTS) as usize;

const LESS: usize = FOR_ONE - 1;

const MORE: usize = FOR_ONE + 1;

// The most but one.
const ALMOST_ALL: u32 = MOST_CONTACTS - 1;

const HALF: u32 = COLLIDERS / 2;

fn print_lay_out<W: Write>(out: &mut W, graph: &mut [u32], capacity: u32) -> io::Result<()> {
    write!(out, "lay_out\t{capacity}")?;
    print_done(out, lay_out(graph, capacity))?;
    writeln!(out)
}

// The length for 1, that for 0, and one word less and one more than that for 1.
pub fn print_refused<W: Write>(out: &mut W) -> io::Result<()> {
    let mut one = [0u32; FOR_ONE];
    for capacity in [1, 0, 2, u32::MAX] {
        print_lay_out(out, &mut one, capacity)?;
    }
    print_lay_out(out, &mut [0u32; FOR_NONE], 0)?;
    print_lay_out(out, &mut [0u32; LESS], 1)?;
    print_lay_out(out, &mut [0u32; MORE], 1)
}

// The length for one more than the most.
pub fn print_too_large<W: Write>(out: &mut W) -> io::Result<()> {
    let mut graph = [0u32; FOR_TOO_MANY];
    for capacity in [TOO_MANY_CONTACTS, MOST_CONTACTS] {
        print_lay_out(out, &mut graph, capacity)?;
    }
    Ok(())
}

// The c-th of many pairs.
fn nth(c: u32) -> Request {
    Request {
        collider1: c % HALF,
        collider2: HALF + c / HALF % HALF,
        has_body1: 0,
        body1: 0,
        has_body2: 0,
        body2: 0,
        contact_events: 0,
        modify_contacts: 0,
        speculative_distance: 0.0,
    }
}

// How many additions are accepted: all but one of those that there is room for.
fn fill(graph: &mut [u32]) -> usize {
    (0..ALMOST_ALL)
        .filter(|&c| add(graph, nth(c)).is_ok())
        .count()
}

pub fn print_full<W: Write>(out: &mut W) -> io::Result<()> {
    let mut graph = [0u32; FOR_MOST];
    print_lay_out(out, &mut graph, MOST_CONTACTS)?;
    write!(out, "fill\t{}", fill(&mut graph))?;
    for c in [ALMOST_ALL, MOST_CONTACTS] {
        print_added(out, add(&mut graph, nth(c)))?;
    }
    writeln!(out)
}
