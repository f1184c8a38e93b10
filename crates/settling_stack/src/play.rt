// The steps of the stack and the lines.
use crate::additions::add_near;
use crate::boxes::{fill_bodies, fill_colliders, fill_settings};
use crate::dealt::fill_shares;
use crate::impulses::write_impulses;
use crate::moves::move_boxes;
use crate::places::{
    BITS_LENGTH, CAPACITY, CHANGES_LENGTH, DISTANCES_LENGTH, EVENTS_LENGTH, GRAPH_LENGTH,
    PROPOSALS_LENGTH, SHARES_LENGTH,
};
use crate::proposed::fill_proposals;
use crate::recorded::touching_pairs;
use case_draws::graph::listed;
use case_draws::hash::Hash;
use case_draws::numbers::{CHANGE_SIZE, EVENT_SIZE};
use case_draws::places::part;
use contact_graph::lay_out::lay_out;
use contact_types::refusal::Refusal;
use layout::body::BODIES_LENGTH;
use layout::collider::COLLIDERS_LENGTH;
use layout::settings::SETTINGS_LENGTH;
use std::io;
use std::io::Write;
use step::answer::StepReport;
use step::input::StepInput;
use step::step::step;

// Since the last line: events, changes, contacts recycled, the hashes of the events and of the changes.
#[derive(Clone, Copy, Default)]
struct Tally {
    events: u32,
    changes: u32,
    recycled: u32,
    event_hash: Hash,
    change_hash: Hash,
}

impl Tally {
    fn count(&mut self, report: StepReport, events: &[u32], changes: &[u32]) {
        self.events = self.events.wrapping_add(report.events);
        self.changes = self.changes.wrapping_add(report.changes);
        self.recycled = self.recycled.wrapping_add(report.recycled);
        let event_words = EVENT_SIZE.wrapping_mul(report.events);
        let change_words = CHANGE_SIZE.wrapping_mul(report.changes);
        self.event_hash.add_words(part(events, 0, event_words));
        self.change_hash.add_words(part(changes, 0, change_words));
    }
}

// The rows that steps change, and those that they read of the boxes.
#[derive(Clone, Copy)]
struct Stack {
    colliders: [u32; COLLIDERS_LENGTH],
    bodies: [u32; BODIES_LENGTH],
    proposals: [u32; PROPOSALS_LENGTH],
    graph: [u32; GRAPH_LENGTH],
    tally: Tally,
}

impl Stack {
    fn new() -> Self {
        Stack {
            colliders: [0; COLLIDERS_LENGTH],
            bodies: [0; BODIES_LENGTH],
            proposals: [0; PROPOSALS_LENGTH],
            graph: [0; GRAPH_LENGTH],
            tally: Tally::default(),
        }
    }

    // Where it stands: the rows are large, and a `Result` of them would be a second copy.
    fn start(&mut self) -> Result<(), Refusal> {
        lay_out(&mut self.graph, CAPACITY)?;
        fill_bodies(&mut self.bodies);
        Ok(())
    }

    fn run(&mut self) -> Result<(), Refusal> {
        let mut settings = [0; SETTINGS_LENGTH];
        let mut shares = [0; SHARES_LENGTH];
        let mut events = [0; EVENTS_LENGTH];
        let mut changes = [0; CHANGES_LENGTH];
        fill_settings(&mut settings);
        fill_shares(&mut shares, &self.graph);
        let input = StepInput {
            settings: &settings,
            colliders: &self.colliders,
            bodies: &self.bodies,
            proposals: &self.proposals,
            shares: &shares,
        };
        let report = step(
            &input,
            &mut self.graph,
            &mut [0; BITS_LENGTH],
            &mut events,
            &mut changes,
            &mut [0; DISTANCES_LENGTH],
        )?;
        self.tally.count(report, &events, &changes);
        Ok(())
    }

    fn play(&mut self, step: u32) -> Result<(), Refusal> {
        move_boxes(&mut self.bodies, step);
        fill_colliders(&mut self.colliders, &self.bodies, step);
        add_near(&mut self.graph, &self.bodies, step);
        fill_proposals(&mut self.proposals, &self.graph, &self.bodies, step);
        self.run()?;
        write_impulses(&mut self.graph, step);
        Ok(())
    }

    fn print_line<W: Write>(&mut self, out: &mut W, steps: u32) -> io::Result<()> {
        let listed = listed(&self.graph);
        let touching = touching_pairs(&self.graph);
        let Tally {
            events,
            changes,
            recycled,
            event_hash,
            change_hash,
        } = self.tally;
        let hash = Hash::of_graph(&self.graph);
        self.tally = Tally::default();
        write!(out, "{steps}\t{listed}\t{touching}")?;
        write!(out, "\t{events}\t{changes}\t{recycled}\t{hash}")?;
        writeln!(out, "\t{event_hash}\t{change_hash}")
    }
}

fn print_refused<W: Write>(out: &mut W, refusal: Refusal) -> io::Result<()> {
    writeln!(out, "refused\t{}", refusal.number())
}

// A line for every ten steps.
pub fn print_stack<W: Write>(out: &mut W) -> io::Result<()> {
    let mut stack = Stack::new();
    if let Err(refusal) = stack.start() {
        return print_refused(out, refusal);
    }
    for step in 0..300 {
        if let Err(refusal) = stack.play(step) {
            return print_refused(out, refusal);
        }
        if step % 10 == 9 {
            stack.print_line(out, step + 1)?;
        }
    }
    Ok(())
}
