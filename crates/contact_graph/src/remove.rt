// The public call `remove`. From `remove_edge_by_id` of avian's contact_graph.rs.
ghost use Rattle.std.specs.Prelude.{◌≡◌, true, [], ◌∷◌, ◌≤◌, ◌<◌, length};
ghost use Rattle.rows.specs.Rows.{put};
ghost use Rattle.layout.specs.Graph.{graph_list, graph_listed};
ghost use Rattle.contact_graph.specs.Removing.{GapOf};
ghost use Rattle.contact_graph.specs.Calls.{removed_words};
ghost use Rattle.contact_range.specs.Checked.{Checked};
ghost use Rattle.contact_graph.specs.Promises.{Removed};
ghost use Rattle.contact_range.specs.Range.{stands};

use crate::call::{check_graph, has_contact};
use contact_range::places::{contact_at, id_at};
use contact_types::contact_id::ContactId;
use contact_types::refusal::Refusal;
use layout::contact::CONTACT_PAIR_INDEX;
use layout::graph::{GRAPH_CAPACITY, GRAPH_FREED, GRAPH_LIST, GRAPH_LISTED};
use words::load::load;
use words::store::store;

// Where a removal stores, and what: the last listed contact's id at the gap, the gap's place in that contact's record.
#[derive(Clone, Copy)]
pub struct Gap {
    pub list_at: usize,
    pub last: ContactId,
    pub index_at: usize,
    pub place: u32,
}

fn gap_of(graph: &[u32], id: ContactId) -> Gap
    requires { Checked graph.now × (stands graph.now id.0 ≡ true) }
    ensures { GapOf graph.now id.0 result }
{
    let listed = load::<usize>(graph, GRAPH_LISTED);
    let at = contact_at(graph, id);
    let place = load::<u32>(graph, at + CONTACT_PAIR_INDEX);
    let last = id_at(graph, GRAPH_LIST + (listed - 1));
    let moved = contact_at(graph, last);
    Gap {
        list_at: GRAPH_LIST + place as usize,
        last,
        index_at: moved + CONTACT_PAIR_INDEX,
        place,
    }
}

// The two counts, side by side.
fn store_counts(graph: &mut [u32], listed: u32, freed: u32)
    requires { graph_list ≤ length graph.old }
    ensures { graph.new ≡ put graph.old graph_listed (listed ∷ freed ∷ []) }
{
    store(graph, GRAPH_LISTED, listed);
    store(graph, GRAPH_FREED, freed);
}

fn close_gap(graph: &mut [u32], gap: Gap)
    requires { (gap.list_at < length graph.old) × (gap.index_at < length graph.old) }
    ensures { graph.new ≡ put (put graph.old gap.list_at (gap.last.0 ∷ [])) gap.index_at (gap.place ∷ []) }
{
    let list_at = gap.list_at;
    let index_at = gap.index_at;
    let last = gap.last;
    store(graph, list_at, last.0);
    store(graph, index_at, gap.place);
}

// The last listed contact takes the gap and is told its new place; the id is freed last.
pub fn remove_standing(graph: &mut [u32], id: ContactId)
    requires { Checked graph.old × (stands graph.old id.0 ≡ true) }
    ensures { graph.new ≡ removed_words graph.old id.0 }
{
    let gap = gap_of(graph, id);
    let capacity = load::<usize>(graph, GRAPH_CAPACITY);
    let listed = load::<u32>(graph, GRAPH_LISTED);
    let freed = load::<u32>(graph, GRAPH_FREED);
    close_gap(graph, gap);
    store(graph, GRAPH_LIST + capacity + freed as usize, id.0);
    store_counts(graph, listed - 1, freed + 1);
}

pub fn remove(graph: &mut [u32], id: ContactId) -> Result<(), Refusal>
    ensures { Removed graph.old id.0 graph.new result }
{
    check_graph(graph)?;
    if !has_contact(graph, id) {
        return Err(Refusal::NoContact);
    }
    remove_standing(graph, id);
    Ok(())
}
