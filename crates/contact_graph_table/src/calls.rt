// 600 calls on a graph of capacity 8: fifty with more additions, fifty with more removals, and so on.
use crate::draws::{draw, id, request};
use crate::recorded::print_recorded;
use case_draws::line::{print_added, print_answer, print_done};
use case_draws::numbers::{GRAPH_CONTACT_SIZE, GRAPH_LIST};
use contact_graph::add::add;
use contact_graph::call::{ContactEdge, Request};
use contact_graph::lay_out::lay_out;
use contact_graph::look_up::look_up;
use contact_graph::remove::remove;
use contact_types::contact_id::ContactId;
use math::bits::bits_of;
use std::io::Write;
use std::{fmt, io};

const CAPACITY: u32 = 8;

const GRAPH_LENGTH: usize = (GRAPH_LIST + GRAPH_CONTACT_SIZE * CAPACITY) as usize;

// A body's number, or that there is none.
#[derive(Clone, Copy)]
struct Body(Option<u32>);

impl fmt::Display for Body {
    fn fmt<W: fmt::Write>(&self, f: &mut fmt::Formatter<W>) -> fmt::Result {
        match self.0 {
            Some(n) => write!(f, "{n}"),
            None => f.write_str("none"),
        }
    }
}

#[derive(Clone, Copy)]
struct Edge(ContactEdge);

impl fmt::Display for Edge {
    fn fmt<W: fmt::Write>(&self, f: &mut fmt::Formatter<W>) -> fmt::Result {
        let e = self.0;
        write!(f, "edge\t{}\t{}\t{}", e.id.0, e.collider1, e.collider2)?;
        write!(f, "\t{}\t{}", Body(e.body1), Body(e.body2))?;
        write!(f, "\t{}", e.pair_index)?;
        write!(f, "\t{}", u32::from(e.touching))?;
        write!(f, "\t{}", u32::from(e.contact_events))
    }
}

fn print_request<W: Write>(out: &mut W, a: Request) -> io::Result<()> {
    let words = [
        a.collider1,
        a.collider2,
        a.has_body1,
        a.body1,
        a.has_body2,
        a.body2,
        a.contact_events,
        a.modify_contacts,
        bits_of(a.speculative_distance),
    ];
    for word in words {
        write!(out, "\t{word}")?;
    }
    Ok(())
}

fn print_add<W: Write>(out: &mut W, graph: &mut [u32], key: u32) -> io::Result<()> {
    let a = request(key);
    write!(out, "add")?;
    print_request(out, a)?;
    print_added(out, add(graph, a))
}

fn print_remove<W: Write>(out: &mut W, graph: &mut [u32], id: u32) -> io::Result<()> {
    write!(out, "remove\t{id}")?;
    print_done(out, remove(graph, ContactId(id)))
}

fn print_look_up<W: Write>(out: &mut W, graph: &[u32], id: u32) -> io::Result<()> {
    write!(out, "look_up\t{id}")?;
    print_answer(out, look_up(graph, ContactId(id)).map(|e| Edge(e)))
}

// How many of ten calls are additions, removals, look ups: 6, 2, 2 or 2, 6, 2.
fn print_call<W: Write>(out: &mut W, graph: &mut [u32], c: u32) -> io::Result<()> {
    let key = draw(c, 0);
    let kind = draw(key, 0) % 10;
    let additions = if c / 50 % 2 == 0 { 6 } else { 2 };
    if kind < additions {
        print_add(out, graph, key)
    } else if kind < 8 {
        print_remove(out, graph, id(key))
    } else {
        print_look_up(out, graph, id(key))
    }
}

pub fn print_graph<W: Write>(out: &mut W) -> io::Result<()> {
    let mut graph = [0u32; GRAPH_LENGTH];
    write!(out, "lay_out\t{CAPACITY}")?;
    print_done(out, lay_out(&mut graph, CAPACITY))?;
    print_recorded(out, &graph)?;
    for c in 0..600 {
        print_call(out, &mut graph, c)?;
        print_recorded(out, &graph)?;
    }
    Ok(())
}
