// The public call `lay_out`: an empty graph in a lent row of words.
ghost use Rattle.std.specs.Prelude.{◌≡◌, ◌≤◌, length};
ghost use Rattle.manifold_records.specs.Written.{zeros};
ghost use Rattle.layout.specs.Graph.{graph_length};
ghost use Rattle.rules.specs.Limits.{most_contacts};
ghost use Rattle.contact_graph.specs.Promises.{LaidOut};

use contact_types::refusal::Refusal;
use layout::contact::CONTACT_SIZE;
use layout::graph::{GRAPH_CAPACITY, GRAPH_LIST};
use layout::limits::MOST_CONTACTS;

// How many words a graph of that capacity has.
pub fn graph_length(capacity: usize) -> usize
    requires { capacity ≤ most_contacts }
    ensures { result ≡ graph_length capacity }
{
    GRAPH_LIST + 2 * capacity + capacity * CONTACT_SIZE
}

// Every word 0.
pub fn clear(words: &mut [u32])
    ensures { words.new ≡ zeros (length words.old) }
{
    words.fill(0);
}

pub fn lay_out(graph: &mut [u32], capacity: u32) -> Result<(), Refusal>
    ensures { LaidOut graph.old capacity graph.new result }
{
    if capacity == 0 {
        return Err(Refusal::WrongLength);
    }
    if MOST_CONTACTS < capacity as usize {
        return Err(Refusal::WrongLength);
    }
    if graph.len() != graph_length(capacity as usize) {
        return Err(Refusal::WrongLength);
    }
    clear(graph);
    graph[GRAPH_CAPACITY] = capacity;
    Ok(())
}
