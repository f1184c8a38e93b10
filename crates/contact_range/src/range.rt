// The range test of a lent graph, linear in its words: refusals 1 and 2 of the specification, condition by condition.
// What the earlier conditions show (`RightLength`, `Counted`, `ListedGiven`, `Standing`) is a clause and no ghost field: each serves three to five functions, and a struct for each, with what makes it, would be longer.
// A view `{ words: &[u32] }` with `Checked` for its ghost field was tried: it proves, but is no plainer, since what writes the lent `&mut [u32]` has the clause and would make a view for each reader.
ghost use Rattle.std.specs.Prelude.{◌≡◌, true, ◌&&◌, ◌||◌, eqb, ◌+◌, ◌≤◌, ◌<◌, length};
ghost use Rattle.layout.specs.Contact.{contact_collider2, contact_size};
ghost use Rattle.rules.specs.Limits.{bodies, colliders};
ghost use Rattle.contact_range.specs.Range.{right_length, optional_fits, names_fit, marks_fit, manifolds_fit, contact_fits, counts_fit, listed_given, names_back, contacts_fit, free_given, stands, is_free, free_apart, given_known, pairs_once, in_range};
ghost use Rattle.contact_range.specs.Recorded.{given_of, listed_count, listed_at, contact_at};
ghost use Rattle.contact_range.specs.Conditions.{RightLength, index_at, Counted, ListedGiven, Standing, FreeTaken, Unmarked, FreeMarked, listed_fits, free_fits, pair_number};
ghost use Rattle.words.specs.Words.{word_at};

use crate::places::{contact_at, free_at, id_at};
use contact_types::contact_id::ContactId;
use data_structures::bit_vec::{get, insert};
use data_structures::pair_key::PairKey;
use layout::bits::MOST_BLOCKS;
use layout::contact::{
    CONTACT_BODY1, CONTACT_BODY2, CONTACT_CACHE, CONTACT_COLLIDER2, CONTACT_EDGE_FLAGS,
    CONTACT_FIRST_MANIFOLD, CONTACT_MANIFOLDS, CONTACT_PAIR_INDEX, CONTACT_SIZE, MARKS_SIZE,
};
use layout::graph::{GRAPH_CAPACITY, GRAPH_FREED, GRAPH_GIVEN, GRAPH_LIST, GRAPH_LISTED};
use layout::limits::{BODIES, COLLIDERS, MANIFOLDS, MOST_CONTACTS, STORED_POINTS};
use layout::manifold::MANIFOLD_SIZE;
use words::load::load;
use words::row::{mark_fits, where_set};

// Bit words for a mark of every pair of colliders.
const PAIR_BLOCKS: usize = COLLIDERS as usize * COLLIDERS as usize / 64;

// Refusal 1: the capacity is 1 to 256, and the length is the one for it.
#[tactic(auto, unfolding(crate::specs::Range::right_length))]
pub fn right_length(graph: &[u32]) -> bool
    ensures { result ≡ right_length graph.now }
{
    if graph.is_empty() {
        return false;
    }
    let capacity = load::<usize>(graph, GRAPH_CAPACITY);
    0 < capacity
        && capacity <= MOST_CONTACTS
        && graph.len() == GRAPH_LIST + 2 * capacity + capacity * CONTACT_SIZE
}

// A mark, and behind a mark of 1 a body's number.
fn body_fits(graph: &[u32], at: usize) -> bool
    requires { at + 2 ≤ length graph.now }
    ensures { result ≡ optional_fits bodies graph.now at }
{
    let mark = load::<u32>(graph, at);
    let number = load::<u32>(graph, at + 1);
    where_set(mark, number < BODIES)
}

// The numbers of colliders and bodies in the record that begins at `at`.
#[tactic(auto, unfolding(crate::specs::Range::names_fit))]
fn names_fit(graph: &[u32], at: usize) -> bool
    requires { at + contact_size ≤ length graph.now }
    ensures { result ≡ names_fit graph.now at }
{
    load::<u32>(graph, at) < COLLIDERS
        && load::<u32>(graph, at + CONTACT_COLLIDER2) < COLLIDERS
        && body_fits(graph, at + CONTACT_BODY1)
        && body_fits(graph, at + CONTACT_BODY2)
}

// The edge's two marks and the pair's nine, and the cache's.
#[tactic(auto, unfolding(crate::specs::Range::marks_fit))]
fn marks_fit(graph: &[u32], at: usize) -> bool
    requires { at + contact_size ≤ length graph.now }
    ensures { result ≡ marks_fit graph.now at }
{
    (0..MARKS_SIZE).all(|k| mark_fits(graph, at + CONTACT_EDGE_FLAGS + k))
        && mark_fits(graph, at + CONTACT_CACHE)
}

// At most 6 manifolds, and at most 4 points in each that is counted.
#[tactic(auto, unfolding(crate::specs::Range::manifolds_fit))]
fn manifolds_fit(graph: &[u32], at: usize) -> bool
    requires { at + contact_size ≤ length graph.now }
    ensures { result ≡ manifolds_fit graph.now at }
{
    let count = load::<usize>(graph, at + CONTACT_MANIFOLDS);
    let first = at + CONTACT_FIRST_MANIFOLD;
    let fits = |k| load::<usize>(graph, first + k * MANIFOLD_SIZE) <= STORED_POINTS;
    count <= MANIFOLDS && (0..count).all(fits)
}

// The record that begins at `at`.
#[tactic(auto, unfolding(crate::specs::Range::contact_fits))]
pub fn contact_fits(graph: &[u32], at: usize) -> bool
    requires { at + contact_size ≤ length graph.now }
    ensures { result ≡ contact_fits graph.now at }
{
    names_fit(graph, at) && marks_fit(graph, at) && manifolds_fit(graph, at)
}

// Ids given, listed and free: each count is at most the capacity.
#[tactic(auto, unfolding(crate::specs::Range::counts_fit))]
fn counts_fit(graph: &[u32]) -> bool
    requires { RightLength graph.now }
    ensures { result ≡ counts_fit graph.now }
{
    let capacity = load::<u32>(graph, GRAPH_CAPACITY);
    load::<u32>(graph, GRAPH_GIVEN) <= capacity
        && load::<u32>(graph, GRAPH_LISTED) <= capacity
        && load::<u32>(graph, GRAPH_FREED) <= capacity
}

// A listed id was given.
fn listed_given(graph: &[u32]) -> bool
    requires { Counted graph.now }
    ensures { result ≡ listed_given graph.now }
{
    let given = load::<u32>(graph, GRAPH_GIVEN);
    let listed = load::<usize>(graph, GRAPH_LISTED);
    (0..listed).all(|p| id_at(graph, GRAPH_LIST + p).0 < given)
}

// The contact at a place of the list names that place, and its record is in range.
fn contact_listed(graph: &[u32], p: usize) -> bool
    requires { ListedGiven graph.now × (p < listed_count graph.now) }
    ensures { result ≡ (eqb (index_at graph.now (listed_at graph.now p)) p && contact_fits graph.now (contact_at graph.now (listed_at graph.now p))) }
{
    let id = id_at(graph, GRAPH_LIST + p);
    let at = contact_at(graph, id);
    load::<usize>(graph, at + CONTACT_PAIR_INDEX) == p && contact_fits(graph, at)
}

// A list entry and its contact name each other, and the record of each listed contact is in range.
fn contacts_listed(graph: &[u32]) -> bool
    requires { ListedGiven graph.now }
    ensures { result ≡ (names_back graph.now && contacts_fit graph.now) }
{
    let listed = load::<usize>(graph, GRAPH_LISTED);
    (0..listed).all(|p| contact_listed(graph, p))
}

// The counts, the list, and the records of the listed contacts.
#[tactic(auto, unfolding(crate::specs::Conditions::listed_fits))]
fn listed_fit(graph: &[u32]) -> bool
    requires { RightLength graph.now }
    ensures { result ≡ listed_fits graph.now }
{
    counts_fit(graph) && listed_given(graph) && contacts_listed(graph)
}

// A free id was given.
fn free_given(graph: &[u32]) -> bool
    requires { Counted graph.now }
    ensures { result ≡ free_given graph.now }
{
    let given = load::<u32>(graph, GRAPH_GIVEN);
    let freed = load::<usize>(graph, GRAPH_FREED);
    (0..freed).all(|k| free_at(graph, k).0 < given)
}

// No id is free twice: each is marked, and none is marked already.
fn free_once(graph: &[u32], marks: &mut [u64; MOST_BLOCKS]) -> bool
    requires { Counted graph.now × (free_given graph.now ≡ true) × Unmarked marks.old }
    ensures { FreeMarked graph.now marks.new result }
{
    let freed = load::<usize>(graph, GRAPH_FREED);
    for k in 0..freed {
        let id = free_at(graph, k);
        if !insert(marks, id.0 as usize) {
            return false;
        }
    }
    true
}

// An id stands if its record names a place of the list that names it.
pub fn is_standing(graph: &[u32], id: ContactId) -> bool
    requires { Standing graph.now × (id.0 < given_of graph.now) }
    ensures { result ≡ stands graph.now id.0 }
{
    let at = contact_at(graph, id);
    let index = load::<usize>(graph, at + CONTACT_PAIR_INDEX);
    index < load::<usize>(graph, GRAPH_LISTED) && id_at(graph, GRAPH_LIST + index) == id
}

// No id is both free and standing.
fn free_apart(graph: &[u32]) -> bool
    requires { Standing graph.now × (free_given graph.now ≡ true) }
    ensures { result ≡ free_apart graph.now }
{
    let freed = load::<usize>(graph, GRAPH_FREED);
    (0..freed).all(|k| !is_standing(graph, free_at(graph, k)))
}

// Whether an id stands or is free; the free ones are marked.
fn is_known(graph: &[u32], marks: &[u64; MOST_BLOCKS], id: ContactId) -> bool
    requires { Standing graph.now × FreeTaken graph.now marks.now × (id.0 < given_of graph.now) }
    ensures { result ≡ (stands graph.now id.0 || is_free graph.now id.0) }
{
    is_standing(graph, id) || get(marks, id.0 as usize)
}

// An id that was given stands or is free.
fn given_known(graph: &[u32], marks: &[u64; MOST_BLOCKS]) -> bool
    requires { Standing graph.now × FreeTaken graph.now marks.now }
    ensures { result ≡ given_known graph.now }
{
    let given = load::<u32>(graph, GRAPH_GIVEN);
    (0..given).all(|id| is_known(graph, marks, ContactId(id)))
}

// The free ids, and those that were given.
#[tactic(auto, unfolding(crate::specs::Conditions::free_fits))]
fn free_fit(graph: &[u32]) -> bool
    requires { Standing graph.now }
    ensures { result ≡ free_fits graph.now }
{
    let mut marks = [0u64; MOST_BLOCKS];
    free_given(graph)
        && free_once(graph, &mut marks)
        && free_apart(graph)
        && given_known(graph, &marks)
}

// A number for the pair of a contact's colliders, the same in either order.
fn pair_number(graph: &[u32], at: usize) -> usize
    requires { (at + contact_size ≤ length graph.now) × (word_at graph.now at < colliders) × (word_at graph.now (at + contact_collider2) < colliders) }
    ensures { result ≡ pair_number (word_at graph.now at) (word_at graph.now (at + 1)) }
{
    let key = PairKey::new(
        load::<u32>(graph, at),
        load::<u32>(graph, at + CONTACT_COLLIDER2),
    );
    let ids = key.get();
    ids.lower as usize * COLLIDERS as usize + ids.higher as usize
}

// The pairs differ: each is marked by its number, and none is marked already.
fn pairs_differ(graph: &[u32], marks: &mut [u64; PAIR_BLOCKS]) -> bool
    requires { ListedGiven graph.now × (contacts_fit graph.now ≡ true) × Unmarked marks.old }
    ensures { result ≡ pairs_once graph.now }
{
    let listed = load::<usize>(graph, GRAPH_LISTED);
    for p in 0..listed {
        let id = id_at(graph, GRAPH_LIST + p);
        let at = contact_at(graph, id);
        let pair = pair_number(graph, at);
        if !insert(marks, pair) {
            return false;
        }
    }
    true
}

// No pair stands twice.
fn pairs_once(graph: &[u32]) -> bool
    requires { ListedGiven graph.now × (contacts_fit graph.now ≡ true) }
    ensures { result ≡ pairs_once graph.now }
{
    let mut marks = [0u64; PAIR_BLOCKS];
    pairs_differ(graph, &mut marks)
}

// Refusal 2 has nothing to say of the graph.
pub fn in_range(graph: &[u32]) -> bool
    requires { right_length graph.now ≡ true }
    ensures { result ≡ in_range graph.now }
{
    listed_fit(graph) && pairs_once(graph) && free_fit(graph)
}
