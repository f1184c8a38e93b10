// The public call `look_up`: a contact's edge by its id. From `get_edge_by_id` of avian's contact_graph.rs.
ghost use Rattle.std.specs.Prelude.{length, ◌+◌, ◌≤◌, ◌<◌};
ghost use Rattle.layout.specs.Contact.{contact_size};
ghost use Rattle.contact_graph.specs.LookUp.{EdgeLoaded};
ghost use Rattle.contact_graph.specs.Promises.{LookedUp};

use crate::call::{ContactEdge, check_graph, has_contact};
use contact_range::places::contact_at;
use contact_types::contact_id::ContactId;
use contact_types::refusal::Refusal;
use layout::contact::{
    CONTACT_BODY1, CONTACT_BODY2, CONTACT_COLLIDER2, CONTACT_PAIR_INDEX, EDGE_CONTACT_EVENTS,
    EDGE_TOUCHING,
};
use words::load::load;

// The edge of a contact whose record begins at that place.
fn load_edge(graph: &[u32], at: usize, id: ContactId) -> ContactEdge
    requires { at + contact_size ≤ length graph.now }
    ensures { EdgeLoaded graph.now at id.0 result }
{
    ContactEdge {
        id,
        collider1: load(graph, at),
        collider2: load(graph, at + CONTACT_COLLIDER2),
        body1: load(graph, at + CONTACT_BODY1),
        body2: load(graph, at + CONTACT_BODY2),
        pair_index: load(graph, at + CONTACT_PAIR_INDEX),
        touching: load(graph, at + EDGE_TOUCHING),
        contact_events: load(graph, at + EDGE_CONTACT_EVENTS),
    }
}

pub fn look_up(graph: &[u32], id: ContactId) -> Result<ContactEdge, Refusal>
    ensures { LookedUp graph.now id.0 result }
{
    check_graph(graph)?;
    if !has_contact(graph, id) {
        return Err(Refusal::NoContact);
    }
    let at = contact_at(graph, id);
    Ok(load_edge(graph, at, id))
}
