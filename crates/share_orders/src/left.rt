// What a step leaves.
use crate::places::{CAPACITY_LENGTH, CHANGES_LENGTH, EVENTS_LENGTH, GRAPH_LENGTH};
use contact_types::refusal::Refusal;
use step::answer::StepReport;

// What the rows for events, changes and distances hold before a step.
const UNWRITTEN: u32 = u32::MAX;

#[derive(Clone, Copy)]
pub struct Left {
    pub graph: [u32; GRAPH_LENGTH],
    pub events: [u32; EVENTS_LENGTH],
    pub changes: [u32; CHANGES_LENGTH],
    pub distances: [u32; CAPACITY_LENGTH],
    pub answer: Result<StepReport, Refusal>,
}

fn first_difference(a: &[u32], b: &[u32]) -> Option<usize> {
    a.iter().zip(b).position(|(x, y)| x != y)
}

impl Left {
    pub fn before(graph: &[u32; GRAPH_LENGTH]) -> Self {
        Left {
            graph: *graph,
            events: [UNWRITTEN; EVENTS_LENGTH],
            changes: [UNWRITTEN; CHANGES_LENGTH],
            distances: [UNWRITTEN; CAPACITY_LENGTH],
            answer: Ok(StepReport {
                events: 0,
                changes: 0,
                recycled: 0,
            }),
        }
    }

    // As before a step, where it stands: the rows are large.
    pub fn begin(&mut self, graph: &[u32; GRAPH_LENGTH]) {
        self.graph.copy_from_slice(graph);
        self.events.fill(UNWRITTEN);
        self.changes.fill(UNWRITTEN);
        self.distances.fill(UNWRITTEN);
    }

    // The refusal's number or 0, and the numbers of events, changes and contacts recycled.
    fn answer_words(&self) -> [u32; 4] {
        match self.answer {
            Ok(report) => [0, report.events, report.changes, report.recycled],
            Err(refusal) => [refusal.number(), 0, 0, 0],
        }
    }

    // The row and the place of the first word that differs.
    pub fn differs(&self, other: &Left) -> Option<(&'static str, usize)> {
        let rows = [
            ("graph", &self.graph[..], &other.graph[..]),
            ("events", &self.events[..], &other.events[..]),
            ("changes", &self.changes[..], &other.changes[..]),
            ("distances", &self.distances[..], &other.distances[..]),
        ];
        for (name, a, b) in rows {
            if let Some(place) = first_difference(a, b) {
                return Some((name, place));
            }
        }
        let place = first_difference(&self.answer_words(), &other.answer_words())?;
        Some(("answer", place))
    }
}
