// What steps write beside the graph, with room for the largest capacity.
ghost use Rattle.std.specs.Prelude.{◌≤◌};

use crate::given::{Given, LARGEST_LENGTH};
use case_draws::hash::Hash;
use case_draws::numbers;
use contact_types::refusal::Refusal;
use layout::change::CHANGE_SIZE;
use layout::event::EVENT_SIZE;
use layout::limits::MOST_WORKERS;
use layout::proposal::PROPOSAL_SIZE;
use layout::shares::SHARES_ENTRIES;
use std::io;
use std::io::Write;
use step::answer::StepReport;
use step::input::StepInput;
use step::step::step;

const EVENTS_LENGTH: usize = EVENT_SIZE * LARGEST_LENGTH;

const CHANGES_LENGTH: usize = CHANGE_SIZE * LARGEST_LENGTH;

// Of bits there is a word for each worker. The report is that of the last step that was made.
#[derive(Clone, Copy)]
pub struct Written {
    bits: [u64; MOST_WORKERS],
    events: [u32; EVENTS_LENGTH],
    changes: [u32; CHANGES_LENGTH],
    distances: [u32; LARGEST_LENGTH],
    report: StepReport,
}

impl Written {
    pub fn new() -> Self {
        Written {
            bits: [0; MOST_WORKERS],
            events: [0; EVENTS_LENGTH],
            changes: [0; CHANGES_LENGTH],
            distances: [0; LARGEST_LENGTH],
            report: StepReport {
                events: 0,
                changes: 0,
                recycled: 0,
            },
        }
    }

    // Of each row, what the capacity asks for is lent.
    pub fn step(
        &mut self,
        given: &Given,
        graph: &mut [u32],
        capacity: usize,
    ) -> Result<StepReport, Refusal>
        requires { capacity ≤ 64 }
    {
        let events = &mut self.events[..];
        let changes = &mut self.changes[..];
        let distances = &mut self.distances[..];
        let input = StepInput {
            settings: &given.settings,
            colliders: &given.colliders,
            bodies: &given.bodies,
            proposals: &given.proposals[..PROPOSAL_SIZE * capacity],
            shares: &given.shares[..SHARES_ENTRIES + capacity],
        };
        let report = step(
            &input,
            graph,
            &mut self.bits,
            &mut events[..EVENT_SIZE * capacity],
            &mut changes[..CHANGE_SIZE * capacity],
            &mut distances[..capacity],
        )?;
        self.report = report;
        Ok(report)
    }

    // Of the events and changes of the last step, and of all distances.
    pub fn print_hashes<W: Write>(&self, out: &mut W, capacity: u32) -> io::Result<()> {
        let event_words = numbers::EVENT_SIZE.wrapping_mul(self.report.events);
        let change_words = numbers::CHANGE_SIZE.wrapping_mul(self.report.changes);
        let events = Hash::of_words(&self.events, event_words);
        let changes = Hash::of_words(&self.changes, change_words);
        let distances = Hash::of_words(&self.distances, capacity);
        write!(out, "\t{events}\t{changes}\t{distances}")
    }
}
