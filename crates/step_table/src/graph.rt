// Ids of the graph that are not active.
use crate::choices::{NO_NUMBER, choice};
use case_draws::draws::{past, slot};
use case_draws::graph::free_place;
use case_draws::numbers::{GRAPH_FREED, GRAPH_GIVEN};
use case_draws::places::word;

// The id freed last, else the number of ids given.
fn last_freed(graph: &[u32]) -> u32 {
    let freed = word(graph, GRAPH_FREED);
    if freed == 0 {
        return word(graph, GRAPH_GIVEN);
    }
    word(graph, slot(free_place(graph), past(freed, 1)))
}

// An id that is not active.
pub fn inactive_id(graph: &[u32], call: u32) -> u32 {
    match choice(call, 69) % 3 {
        0 => last_freed(graph),
        1 => word(graph, GRAPH_GIVEN),
        _ => NO_NUMBER,
    }
}
