// The public call `add`. From `add_edge_and_key_with` of avian's contact_graph.rs.
ghost use Rattle.std.specs.Prelude.{◌≡◌, true, cond, eqb, [], ◌∷◌, ◌++◌, ◌+◌, ◌-◌, ◌≤◌, ◌<◌, length};
ghost use Rattle.rows.specs.Rows.{put};
ghost use Rattle.layout.specs.Contact.{contact_cache, contact_size};
ghost use Rattle.layout.specs.Graph.{graph_given, graph_list};
ghost use Rattle.rules.specs.Limits.{most_contacts};
ghost use Rattle.manifold_records.specs.Written.{zeros};
ghost use Rattle.contact_graph.specs.Adding.{AddedNew};
ghost use Rattle.contact_graph.specs.Calls.{body_word, request_fits, addition_of, stands_at, pair_stands, new_id_of};
ghost use Rattle.contact_range.specs.Checked.{Checked};
ghost use Rattle.contact_graph.specs.Promises.{Added};
ghost use Rattle.contact_range.specs.Range.{same_colliders};
ghost use Rattle.contact_range.specs.Recorded.{capacity_of, listed_count};
ghost use Rattle.contact_records.specs.Written.{new_contact_words};

use crate::call::{ContactEdge, Request, check_graph};
use contact_range::places::{contact_at, free_at, id_at};
use contact_types::contact_id::ContactId;
use contact_types::refusal::Refusal;
use data_structures::pair_key::PairKey;
use layout::contact::{CONTACT_CACHE, CONTACT_COLLIDER2, CONTACT_SIZE};
use layout::graph::{GRAPH_CAPACITY, GRAPH_FREED, GRAPH_GIVEN, GRAPH_LIST, GRAPH_LISTED};
use layout::limits::{BODIES, COLLIDERS};
use manifold_records::zeros::store_zeros;
use math::bits::bits_of;
use words::load::load;
use words::row::{store_words, where_set};
use words::store::store;

// Refusal 2 has nothing to say of the request.
#[tactic(auto, unfolding(crate::specs::Calls::request_fits))]
fn request_fits(a: Request) -> bool
    ensures { result ≡ request_fits a }
{
    a.collider1 < COLLIDERS
        && a.collider2 < COLLIDERS
        && where_set(a.has_body1, a.body1 < BODIES)
        && where_set(a.has_body2, a.body2 < BODIES)
        && a.contact_events < 2
        && a.modify_contacts < 2
}

// The same two colliders, in either order.
pub fn same_colliders(a: u32, b: u32, c: u32, d: u32) -> bool
    ensures { result ≡ same_colliders a b c d }
{
    PairKey::new(a, b) == PairKey::new(c, d)
}

// The pair at a place of the list is that pair.
fn stands_at(graph: &[u32], p: usize, a: u32, b: u32) -> bool
    requires { Checked graph.now × (p < listed_count graph.now) }
    ensures { result ≡ stands_at graph.now a b p }
{
    let at = contact_at(graph, id_at(graph, GRAPH_LIST + p));
    let collider1 = load::<u32>(graph, at);
    let collider2 = load::<u32>(graph, at + CONTACT_COLLIDER2);
    same_colliders(a, b, collider1, collider2)
}

// The pair stands already.
fn pair_stands(graph: &[u32], a: u32, b: u32) -> bool
    requires { Checked graph.now }
    ensures { result ≡ pair_stands graph.now a b }
{
    let listed = load::<usize>(graph, GRAPH_LISTED);
    (0..listed).any(|p| stands_at(graph, p, a, b))
}

// The id freed last, else the lowest never given.
fn new_id(graph: &[u32]) -> ContactId
    requires { Checked graph.now }
    ensures { result.0 ≡ new_id_of graph.now }
{
    let freed = load::<usize>(graph, GRAPH_FREED);
    if freed == 0 {
        return id_at(graph, GRAPH_GIVEN);
    }
    free_at(graph, freed - 1)
}

// The word behind a mark: 0 where there is nothing.
fn body_word(mark: u32, body: u32) -> u32
    ensures { result ≡ body_word mark body }
{
    if mark == 1 { body } else { 0 }
}

// The first words of the new contact's record; all the others are 0.
fn new_words(a: Request, index: u32) -> [u32; CONTACT_CACHE]
    requires { request_fits a ≡ true }
    ensures { result ≡ new_contact_words index (addition_of a) }
{
    let body1 = body_word(a.has_body1, a.body1);
    let body2 = body_word(a.has_body2, a.body2);
    let distance = bits_of(a.speculative_distance);
    [
        a.collider1,
        a.collider2,
        a.has_body1,
        body1,
        a.has_body2,
        body2,
        index,
        0,
        a.contact_events,
        0,
        0,
        0,
        0,
        0,
        0,
        0,
        0,
        a.modify_contacts,
        0,
        distance,
    ]
}

// The whole record, as `ContactPair::new` has it but for what the request carries.
fn store_new(graph: &mut [u32], at: usize, a: Request, index: u32)
    requires { (request_fits a ≡ true) × (at + contact_size ≤ length graph.old) }
    ensures { graph.new ≡ put graph.old at (new_contact_words index (addition_of a) ++ zeros (contact_size - contact_cache)) }
{
    let head = new_words(a, index);
    store_zeros(graph, at, CONTACT_SIZE);
    store_words(graph, at, &head);
}

// The ids given, the pairs listed and the ids free, side by side.
fn store_three(graph: &mut [u32], given: u32, listed: u32, freed: u32)
    requires { graph_list ≤ length graph.old }
    ensures { graph.new ≡ put graph.old graph_given (given ∷ listed ∷ freed ∷ []) }
{
    let counts = [given, listed, freed];
    store_words(graph, GRAPH_GIVEN, &counts);
}

// The ids given, once one more is needed: where an id is free, none is given.
fn next_given(given: u32, freed: u32) -> u32
    requires { given ≤ most_contacts }
    ensures { result ≡ cond (eqb freed 0) (given + 1) given }
{
    if freed == 0 { given + 1 } else { given }
}

// The ids free, once one is taken.
fn next_freed(freed: u32) -> u32
    ensures { result ≡ freed - 1 }
{
    freed.saturating_sub(1)
}

// The contact is recorded under its new id and listed last.
fn add_new(graph: &mut [u32], a: Request) -> ContactId
    requires { Checked graph.old × (request_fits a ≡ true) × (listed_count graph.old < capacity_of graph.old) }
    ensures { AddedNew graph.old a graph.new result }
{
    // The form that the specification names: the edge is made with the placeholder, and named once its id and its place are known.
    let mut edge = ContactEdge::new(a.collider1, a.collider2);
    let new = new_id(graph);
    let given = load::<u32>(graph, GRAPH_GIVEN);
    let listed = load::<u32>(graph, GRAPH_LISTED);
    let freed = load::<u32>(graph, GRAPH_FREED);
    let at = contact_at(graph, new);
    edge.id = new;
    edge.pair_index = listed;
    store_new(graph, at, a, edge.pair_index);
    store(graph, GRAPH_LIST + listed as usize, new.0);
    let now_given = next_given(given, freed);
    let now_freed = next_freed(freed);
    store_three(graph, now_given, listed + 1, now_freed);
    edge.id
}

pub fn add(graph: &mut [u32], a: Request) -> Result<ContactId, Refusal>
    ensures { Added graph.old a graph.new result }
{
    check_graph(graph)?;
    if !request_fits(a) {
        return Err(Refusal::OutOfRange);
    }
    if a.collider1 == a.collider2 {
        return Err(Refusal::SameCollider);
    }
    let full = load::<usize>(graph, GRAPH_LISTED) == load::<usize>(graph, GRAPH_CAPACITY);
    if pair_stands(graph, a.collider1, a.collider2) {
        return Err(Refusal::PairExists);
    }
    if full {
        return Err(Refusal::GraphFull);
    }
    Ok(add_new(graph, a))
}
