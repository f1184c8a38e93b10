// Where a graph's words stand: a word as a number, a contact's record, a free id.
ghost use Rattle.std.specs.Prelude.{◌≡◌, ◌<◌, length};
ghost use Rattle.words.specs.Words.{word_at};
ghost use Rattle.contact_range.specs.Recorded.{capacity_of, free_at};
ghost use Rattle.contact_range.specs.Conditions.{RightLength, RecordAt};

use contact_types::contact_id::ContactId;
use layout::contact::CONTACT_SIZE;
use layout::graph::{GRAPH_CAPACITY, GRAPH_LIST};
use words::load::load;

// A word as a contact's id.
pub fn id_at(graph: &[u32], at: usize) -> ContactId
    requires { at < length graph.now }
    ensures { result.0 ≡ word_at graph.now at }
{
    ContactId(load::<u32>(graph, at))
}

// Where the record of a contact begins.
pub fn contact_at(graph: &[u32], id: ContactId) -> usize
    requires { RightLength graph.now × (id.0 < capacity_of graph.now) }
    ensures { RecordAt graph.now id.0 result }
{
    let capacity = load::<usize>(graph, GRAPH_CAPACITY);
    GRAPH_LIST + 2 * capacity + id.0 as usize * CONTACT_SIZE
}

// The id at a place of the free ids.
pub fn free_at(graph: &[u32], k: usize) -> ContactId
    requires { RightLength graph.now × (k < capacity_of graph.now) }
    ensures { result.0 ≡ free_at graph.now k }
{
    let capacity = load::<usize>(graph, GRAPH_CAPACITY);
    id_at(graph, GRAPH_LIST + capacity + k)
}
