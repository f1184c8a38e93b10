// What the graph's calls take and answer, and the tests that they share. From avian's contact_types/mod.rs and contact_graph.rs.
ghost use Rattle.std.specs.Prelude.{◌≡◌, length};
ghost use Rattle.layout.specs.Request.{request_length};
ghost use Rattle.contact_graph.specs.Calls.{new_edge, request_of};
ghost use Rattle.contact_range.specs.Range.{stands};
ghost use Rattle.contact_range.specs.Checked.{Checked};
ghost use Rattle.contact_graph.specs.Promises.{GraphTested};

use contact_range::range::{in_range, is_standing, right_length};
use contact_types::contact_id::ContactId;
use contact_types::refusal::Refusal;
use layout::graph::GRAPH_GIVEN;
use layout::request::{
    REQUEST_BODY1, REQUEST_BODY1_NUMBER, REQUEST_BODY2, REQUEST_BODY2_NUMBER, REQUEST_COLLIDER1,
    REQUEST_COLLIDER2, REQUEST_CONTACT_EVENTS, REQUEST_MODIFY_CONTACTS,
    REQUEST_SPECULATIVE_DISTANCE,
};
use words::load::load;

// What an addition carries. Marks are numbers, so that one that is neither 0 nor 1 can be refused.
#[derive(Clone, Copy, PartialEq, Debug)]
pub struct Request {
    pub collider1: u32,
    pub collider2: u32,
    pub has_body1: u32,
    pub body1: u32,
    pub has_body2: u32,
    pub body2: u32,
    pub contact_events: u32,
    pub modify_contacts: u32,
    pub speculative_distance: f32,
}

// The request in an addition's words.
pub fn load_request(words: &[u32]) -> Request
    requires { length words.now ≡ request_length }
    ensures { result ≡ request_of words.now }
{
    Request {
        collider1: load(words, REQUEST_COLLIDER1),
        collider2: load(words, REQUEST_COLLIDER2),
        has_body1: load(words, REQUEST_BODY1),
        body1: load(words, REQUEST_BODY1_NUMBER),
        has_body2: load(words, REQUEST_BODY2),
        body2: load(words, REQUEST_BODY2_NUMBER),
        contact_events: load(words, REQUEST_CONTACT_EVENTS),
        modify_contacts: load(words, REQUEST_MODIFY_CONTACTS),
        speculative_distance: load(words, REQUEST_SPECULATIVE_DISTANCE),
    }
}

// The edge of a contact, by value.
#[derive(Clone, Copy, PartialEq, Eq, Debug)]
pub struct ContactEdge {
    pub id: ContactId,
    pub collider1: u32,
    pub collider2: u32,
    pub body1: Option<u32>,
    pub body2: Option<u32>,
    pub pair_index: u32,
    pub touching: bool,
    pub contact_events: bool,
}

impl ContactEdge {
    // An edge that is not in a graph yet.
    pub fn new(collider1: u32, collider2: u32) -> ContactEdge
        ensures { result ≡ new_edge collider1 collider2 }
    {
        ContactEdge {
            id: ContactId::PLACEHOLDER,
            collider1,
            collider2,
            body1: None,
            body2: None,
            pair_index: 0,
            touching: false,
            contact_events: false,
        }
    }
}

// Refusals 1 and 2 of a lent graph.
pub fn check_graph(graph: &[u32]) -> Result<(), Refusal>
    ensures { GraphTested graph.now result }
{
    if !right_length(graph) {
        return Err(Refusal::WrongLength);
    }
    if !in_range(graph) {
        return Err(Refusal::OutOfRange);
    }
    Ok(())
}

// Whether an id is a standing contact's.
pub fn has_contact(graph: &[u32], id: ContactId) -> bool
    requires { Checked graph.now }
    ensures { result ≡ stands graph.now id.0 }
{
    id.0 < load::<u32>(graph, GRAPH_GIVEN) && is_standing(graph, id)
}
