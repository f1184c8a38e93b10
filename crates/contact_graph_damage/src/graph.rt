// A graph of capacity 4, built by calls: the contacts 0 and 2 stand, 1 is free, 3 was never given. Contact 0 has no body 2.
use crate::places::CAPACITY;
use contact_graph::add::add;
use contact_graph::call::Request;
use contact_graph::lay_out::lay_out;
use contact_graph::remove::remove;
use contact_types::contact_id::ContactId;

pub fn request(collider1: u32, collider2: u32, has_body2: u32) -> Request {
    Request {
        collider1,
        collider2,
        has_body1: 1,
        body1: 3,
        has_body2,
        body2: 4,
        contact_events: 1,
        modify_contacts: 0,
        speculative_distance: 0.5,
    }
}

// None of the answers is a refusal.
pub fn build(graph: &mut [u32]) {
    let _ = lay_out(graph, CAPACITY);
    let _ = add(graph, request(10, 20, 0));
    let _ = add(graph, request(30, 40, 1));
    let _ = add(graph, request(50, 60, 1));
    let _ = remove(graph, ContactId(1));
}
