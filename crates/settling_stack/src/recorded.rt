// How many listed pairs touch.
use case_draws::graph::{listed_ids, record};
use case_draws::numbers::EDGE_TOUCHING;
use case_draws::places::word;

// By the edges' marks.
pub fn touching_pairs(graph: &[u32]) -> usize {
    listed_ids(graph)
        .iter()
        .filter(|&&id| word(record(graph, id), EDGE_TOUCHING) == 1)
        .count()
}
