// Refusal 1: the capacity, and the length of each lent row for it.
ghost use Rattle.std.specs.Prelude.{◌≡◌, ◌≤◌};
ghost use Rattle.rules.specs.Limits.{most_contacts};
ghost use Rattle.step.specs.Step.{given_rows, rows, given_long, rows_long, lengths_fit};

use crate::input::StepInput;
use contact_range::range::right_length;
use data_structures::bit_vec::blocks;
use layout::body::BODIES_LENGTH;
use layout::change::CHANGE_SIZE;
use layout::collider::COLLIDERS_LENGTH;
use layout::event::EVENT_SIZE;
use layout::graph::GRAPH_CAPACITY;
use layout::limits::MOST_WORKERS;
use layout::proposal::PROPOSAL_SIZE;
use layout::settings::SETTINGS_LENGTH;
use layout::shares::SHARES_ENTRIES;
use words::load::load;

// What is lent to read.
#[tactic(auto, unfolding(crate::specs::Step::given_long))]
fn given_long(input: &StepInput<'_>, capacity: usize) -> bool
    requires { capacity ≤ most_contacts }
    ensures { result ≡ given_long (given_rows input.now) capacity }
{
    input.settings.len() == SETTINGS_LENGTH
        && input.colliders.len() == COLLIDERS_LENGTH
        && input.bodies.len() == BODIES_LENGTH
        && input.proposals.len() == capacity * PROPOSAL_SIZE
        && input.shares.len() == SHARES_ENTRIES + capacity
}

// What is lent to write, beside the graph.
#[tactic(auto, unfolding(crate::specs::Step::rows_long))]
fn rows_long(
    bits: &[u64],
    events: &[u32],
    changes: &[u32],
    distances: &[u32],
    capacity: usize,
) -> bool
    requires { capacity ≤ most_contacts }
    ensures { result ≡ rows_long (rows bits.now events.now changes.now distances.now) capacity }
{
    let count = blocks(capacity);
    bits.len() == MOST_WORKERS * count
        && events.len() == capacity * EVENT_SIZE
        && changes.len() == capacity * CHANGE_SIZE
        && distances.len() == capacity
}

#[tactic(auto, unfolding(crate::specs::Step::lengths_fit))]
pub fn lengths_fit(
    input: &StepInput<'_>,
    graph: &[u32],
    bits: &[u64],
    events: &[u32],
    changes: &[u32],
    distances: &[u32],
) -> bool
    ensures { result ≡ lengths_fit (given_rows input.now) graph.now (rows bits.now events.now changes.now distances.now) }
{
    if !right_length(graph) {
        return false;
    }
    let capacity = load::<usize>(graph, GRAPH_CAPACITY);
    given_long(input, capacity) && rows_long(bits, events, changes, distances, capacity)
}
