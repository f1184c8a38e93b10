// The calls of a list, each printed with its answer and hashes of what then stands in the graph and in what steps write.
ghost use Rattle.std.specs.Prelude.{◌≤◌};

use crate::choices::{Kind, call_count, call_key, capacity, collider_count, kind_of, list_key};
use crate::given::Given;
use crate::impulses::write_impulses;
use crate::request::request;
use crate::written::Written;
use case_draws::hash::Hash;
use contact_graph::add::add;
use contact_graph::lay_out::lay_out;
use contact_types::contact_id::ContactId;
use contact_types::refusal::Refusal;
use std::io;
use std::io::Write;
use step::answer::StepReport;

// A list of calls: its number and key, the graph's capacity, and how many colliders, and bodies, are drawn.
#[derive(Clone, Copy)]
pub struct List {
    number: u32,
    key: u32,
    pub capacity: u32,
    colliders: u32,
    ghost within: { capacity ≤ 64 },
}

fn print_refused<W: Write>(out: &mut W, refusal: Refusal) -> io::Result<()> {
    write!(out, "\tR\t{}", refusal.number())
}

fn print_added<W: Write>(out: &mut W, answer: Result<ContactId, Refusal>) -> io::Result<()> {
    write!(out, "\tA")?;
    match answer {
        Ok(id) => write!(out, "\t{}", id.0),
        Err(refusal) => print_refused(out, refusal),
    }
}

fn print_stepped<W: Write>(out: &mut W, answer: Result<StepReport, Refusal>) -> io::Result<()> {
    write!(out, "\tS")?;
    match answer {
        Ok(
            StepReport {
                events,
                changes,
                recycled,
            },
        ) => write!(out, "\t{events}\t{changes}\t{recycled}"),
        Err(refusal) => print_refused(out, refusal),
    }
}

impl List {
    pub fn new(number: u32) -> Self {
        let key = list_key(number);
        let capacity = capacity(key);
        List {
            number,
            key,
            capacity,
            colliders: collider_count(key, capacity),
        }
    }

    fn print_call<W: Write>(
        &self,
        out: &mut W,
        given: &mut Given,
        graph: &mut [u32],
        written: &mut Written,
        n: u32,
    ) -> io::Result<()> {
        let call = call_key(self.key, n);
        match kind_of(call, n, self.capacity) {
            Kind::Addition => print_added(out, add(graph, request(call, self.colliders))),
            Kind::Impulses => {
                write_impulses(graph, call);
                write!(out, "\tI\t-")
            }
            Kind::Step => {
                given.change(graph, self.colliders, call);
                print_stepped(out, written.step(given, graph, self.capacity as usize))
            }
        }
    }

    // In a graph that has the length for the capacity.
    pub fn print<W: Write>(&self, out: &mut W, graph: &mut [u32]) -> io::Result<()> {
        let mut given = Given::new();
        given.start(self.colliders, self.key);
        let mut written = Written::new();
        let _ = lay_out(graph, self.capacity);
        for n in 0..call_count(self.key) {
            write!(out, "{}\t{n}", self.number)?;
            self.print_call(out, &mut given, graph, &mut written, n)?;
            write!(out, "\t{}", Hash::of_graph(graph))?;
            written.print_hashes(out, self.capacity)?;
            writeln!(out)?;
        }
        Ok(())
    }
}
