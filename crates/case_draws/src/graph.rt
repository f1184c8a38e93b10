// What a graph records of its contacts.
use crate::numbers::{
    CONTACT_SIZE, GRAPH_CAPACITY, GRAPH_FREED, GRAPH_IDS, GRAPH_LIST, GRAPH_LISTED, GRAPH_LISTS,
};
use crate::places::{part, word};

pub fn listed(graph: &[u32]) -> u32 {
    word(graph, GRAPH_LISTED)
}

pub fn listed_id(graph: &[u32], p: u32) -> u32 {
    word(graph, GRAPH_LIST.wrapping_add(p))
}

pub fn listed_ids(graph: &[u32]) -> &[u32] {
    part(graph, GRAPH_LIST, listed(graph))
}

// Where the free ids begin.
pub fn free_place(graph: &[u32]) -> u32 {
    let capacity = word(graph, GRAPH_CAPACITY);
    GRAPH_LIST.wrapping_add(GRAPH_LISTS.wrapping_mul(capacity))
}

pub fn free_ids(graph: &[u32]) -> &[u32] {
    part(graph, free_place(graph), word(graph, GRAPH_FREED))
}

// Where a contact's record begins.
pub fn record_place(graph: &[u32], id: u32) -> u32 {
    let capacity = word(graph, GRAPH_CAPACITY);
    GRAPH_LIST
        .wrapping_add(GRAPH_IDS.wrapping_mul(capacity))
        .wrapping_add(CONTACT_SIZE.wrapping_mul(id))
}

pub fn record(graph: &[u32], id: u32) -> &[u32] {
    part(graph, record_place(graph, id), CONTACT_SIZE)
}
