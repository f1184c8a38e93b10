// The lengths of the lent rows for a capacity, and limits and places by number: docs/BUFFERS.md names each.
ghost use Rattle.std.specs.Prelude.{◌≡◌, ◌≤◌};
ghost use Rattle.rules.specs.Limits.{most_contacts};
ghost use Rattle.contact_graph.specs.Promises.{done_answer};
ghost use Rattle.contact_api.specs.Calls.{done_number, LengthsCalled, LayoutCalled};
ghost use Rattle.contact_api.specs.Layout.{lengths_words, layout_words};

use crate::done::done_number;
use crate::graph_calls::ADD_ANSWER_LENGTH;
use crate::graph_calls::LOOK_UP_ANSWER_LENGTH;
use crate::prune_call::PRUNE_ANSWER_LENGTH;
use crate::prune_call::PRUNE_NORMAL_LENGTH;
use crate::step_call::STEP_ANSWER_LENGTH;
use crate::trace_call::PLAY_ANSWER_LENGTH;
use crate::trace_call::PLAYER_LENGTH;
use contact_graph::lay_out::graph_length;
use contact_types::refusal::Refusal;
use data_structures::bit_vec::blocks;
use layout::body::BODIES_LENGTH;
use layout::body::BODY_ANGULAR_VELOCITY;
use layout::body::BODY_CENTER_OF_MASS;
use layout::body::BODY_FRICTION;
use layout::body::BODY_LINEAR_VELOCITY;
use layout::body::BODY_MARGIN;
use layout::body::BODY_POSITION;
use layout::body::BODY_ROTATION;
use layout::body::BODY_SIZE;
use layout::body::BODY_SPECULATIVE_MAXIMUM;
use layout::body::BODY_STATIC;
use layout::body::BODY_SWEEP_RADIUS;
use layout::change::CHANGE_SIZE;
use layout::collider::COLLIDER_BODY;
use layout::collider::COLLIDER_FILTERS;
use layout::collider::COLLIDER_FRICTION;
use layout::collider::COLLIDER_LOWER;
use layout::collider::COLLIDER_MARGIN;
use layout::collider::COLLIDER_MEMBERSHIPS;
use layout::collider::COLLIDER_POSITION;
use layout::collider::COLLIDER_RESTITUTION;
use layout::collider::COLLIDER_SENSOR;
use layout::collider::COLLIDER_SIZE;
use layout::collider::COLLIDER_UPPER;
use layout::collider::COLLIDERS_LENGTH;
use layout::contact::CONTACT_BODY1;
use layout::contact::CONTACT_BODY2;
use layout::contact::CONTACT_CACHE;
use layout::contact::CONTACT_COLLIDER1;
use layout::contact::CONTACT_COLLIDER2;
use layout::contact::CONTACT_COUNT_CHANGE;
use layout::contact::CONTACT_EDGE_FLAGS;
use layout::contact::CONTACT_FLAGS;
use layout::contact::CONTACT_MANIFOLDS;
use layout::contact::CONTACT_PAIR_INDEX;
use layout::contact::CONTACT_SIZE;
use layout::contact::CONTACT_SPECULATIVE_DISTANCE;
use layout::event::EVENT_SIZE;
use layout::graph::GRAPH_CAPACITY;
use layout::graph::GRAPH_FREED;
use layout::graph::GRAPH_GIVEN;
use layout::graph::GRAPH_LIST;
use layout::graph::GRAPH_LISTED;
use layout::limits::BODIES;
use layout::limits::COLLIDERS;
use layout::limits::MANIFOLDS;
use layout::limits::MOST_CONTACTS;
use layout::limits::MOST_WORKERS;
use layout::limits::PROPOSED_POINTS;
use layout::limits::STORED_POINTS;
use layout::manifold::MANIFOLD_FRICTION;
use layout::manifold::MANIFOLD_NORMAL;
use layout::manifold::MANIFOLD_POINTS;
use layout::manifold::MANIFOLD_RESTITUTION;
use layout::manifold::MANIFOLD_SIZE;
use layout::manifold::MANIFOLD_TANGENT_VELOCITY;
use layout::point::POINT_ANCHOR1;
use layout::point::POINT_ANCHOR2;
use layout::point::POINT_BASE_PENETRATION;
use layout::point::POINT_FEATURES;
use layout::point::POINT_NORMAL_IMPULSE;
use layout::point::POINT_NORMAL_SPEED;
use layout::point::POINT_PENETRATION;
use layout::point::POINT_POSITION;
use layout::point::POINT_SIZE;
use layout::point::POINT_WARM_START_NORMAL_IMPULSE;
use layout::point::POINT_WARM_START_TANGENT_IMPULSE;
use layout::proposal::PROPOSAL_COUNT;
use layout::proposal::PROPOSAL_HOOK;
use layout::proposal::PROPOSAL_MANIFOLDS;
use layout::proposal::PROPOSAL_SIZE;
use layout::proposal::PROPOSED_MANIFOLD_NORMAL;
use layout::proposal::PROPOSED_MANIFOLD_POINTS;
use layout::proposal::PROPOSED_MANIFOLD_SIZE;
use layout::proposal::PROPOSED_POINT_FEATURES;
use layout::proposal::PROPOSED_POINT_PENETRATION;
use layout::proposal::PROPOSED_POINT_SIZE;
use layout::prune::PRUNE_POINTS_LENGTH;
use layout::request::REQUEST_LENGTH;
use layout::settings::SETTINGS_CONTACT_TOLERANCE;
use layout::settings::SETTINGS_FRICTION;
use layout::settings::SETTINGS_LENGTH;
use layout::settings::SETTINGS_LENGTH_UNIT;
use layout::settings::SETTINGS_MATCH_CONTACTS;
use layout::settings::SETTINGS_MATCHING;
use layout::settings::SETTINGS_RECYCLE_COSINE;
use layout::settings::SETTINGS_RECYCLE_DISTANCE;
use layout::settings::SETTINGS_RESTITUTION;
use layout::settings::SETTINGS_STEP_TIME;
use layout::shares::SHARES_COUNTS;
use layout::shares::SHARES_ENTRIES;
use trace_printing::lines::PRINTED_SIZE;
use words::row::store_words;

pub const LENGTHS_LENGTH: usize = 10;

pub const LAYOUT_LENGTH: usize = 99;

// As docs/BUFFERS.md names them.
const LAYOUT: [u32; LAYOUT_LENGTH] = [
    MOST_CONTACTS as u32,
    COLLIDERS,
    BODIES,
    MANIFOLDS as u32,
    STORED_POINTS as u32,
    PROPOSED_POINTS as u32,
    MOST_WORKERS as u32,
    GRAPH_CAPACITY as u32,
    GRAPH_GIVEN as u32,
    GRAPH_LISTED as u32,
    GRAPH_FREED as u32,
    GRAPH_LIST as u32,
    CONTACT_SIZE as u32,
    CONTACT_COLLIDER1 as u32,
    CONTACT_COLLIDER2 as u32,
    CONTACT_BODY1 as u32,
    CONTACT_BODY2 as u32,
    CONTACT_PAIR_INDEX as u32,
    CONTACT_EDGE_FLAGS as u32,
    CONTACT_FLAGS as u32,
    CONTACT_COUNT_CHANGE as u32,
    CONTACT_SPECULATIVE_DISTANCE as u32,
    CONTACT_CACHE as u32,
    CONTACT_MANIFOLDS as u32,
    MANIFOLD_SIZE as u32,
    MANIFOLD_NORMAL as u32,
    MANIFOLD_FRICTION as u32,
    MANIFOLD_RESTITUTION as u32,
    MANIFOLD_TANGENT_VELOCITY as u32,
    MANIFOLD_POINTS as u32,
    POINT_SIZE as u32,
    POINT_ANCHOR1 as u32,
    POINT_ANCHOR2 as u32,
    POINT_POSITION as u32,
    POINT_PENETRATION as u32,
    POINT_BASE_PENETRATION as u32,
    POINT_NORMAL_IMPULSE as u32,
    POINT_NORMAL_SPEED as u32,
    POINT_WARM_START_NORMAL_IMPULSE as u32,
    POINT_WARM_START_TANGENT_IMPULSE as u32,
    POINT_FEATURES as u32,
    SETTINGS_LENGTH as u32,
    SETTINGS_STEP_TIME as u32,
    SETTINGS_LENGTH_UNIT as u32,
    SETTINGS_CONTACT_TOLERANCE as u32,
    SETTINGS_RECYCLE_DISTANCE as u32,
    SETTINGS_RECYCLE_COSINE as u32,
    SETTINGS_MATCH_CONTACTS as u32,
    SETTINGS_FRICTION as u32,
    SETTINGS_RESTITUTION as u32,
    SETTINGS_MATCHING as u32,
    COLLIDER_SIZE as u32,
    COLLIDER_BODY as u32,
    COLLIDER_LOWER as u32,
    COLLIDER_UPPER as u32,
    COLLIDER_POSITION as u32,
    COLLIDER_MEMBERSHIPS as u32,
    COLLIDER_FILTERS as u32,
    COLLIDER_FRICTION as u32,
    COLLIDER_RESTITUTION as u32,
    COLLIDER_MARGIN as u32,
    COLLIDER_SENSOR as u32,
    BODY_SIZE as u32,
    BODY_STATIC as u32,
    BODY_POSITION as u32,
    BODY_ROTATION as u32,
    BODY_CENTER_OF_MASS as u32,
    BODY_LINEAR_VELOCITY as u32,
    BODY_ANGULAR_VELOCITY as u32,
    BODY_FRICTION as u32,
    BODY_MARGIN as u32,
    BODY_SPECULATIVE_MAXIMUM as u32,
    BODY_SWEEP_RADIUS as u32,
    PROPOSAL_SIZE as u32,
    PROPOSAL_HOOK as u32,
    PROPOSAL_COUNT as u32,
    PROPOSAL_MANIFOLDS as u32,
    PROPOSED_MANIFOLD_SIZE as u32,
    PROPOSED_MANIFOLD_NORMAL as u32,
    PROPOSED_MANIFOLD_POINTS as u32,
    PROPOSED_POINT_SIZE as u32,
    PROPOSED_POINT_PENETRATION as u32,
    PROPOSED_POINT_FEATURES as u32,
    SHARES_COUNTS as u32,
    SHARES_ENTRIES as u32,
    EVENT_SIZE as u32,
    CHANGE_SIZE as u32,
    REQUEST_LENGTH as u32,
    ADD_ANSWER_LENGTH as u32,
    STEP_ANSWER_LENGTH as u32,
    LOOK_UP_ANSWER_LENGTH as u32,
    PRUNE_NORMAL_LENGTH as u32,
    PRUNE_POINTS_LENGTH as u32,
    PRUNE_ANSWER_LENGTH as u32,
    PLAYER_LENGTH as u32,
    PLAY_ANSWER_LENGTH as u32,
    PRINTED_SIZE as u32,
    LENGTHS_LENGTH as u32,
    LAYOUT_LENGTH as u32,
];

fn lengths_words(capacity: usize) -> [u32; LENGTHS_LENGTH]
    requires { capacity ≤ most_contacts }
    ensures { result ≡ lengths_words capacity }
{
    let graph = graph_length(capacity);
    let count = blocks(capacity);
    [
        SETTINGS_LENGTH as u32,
        COLLIDERS_LENGTH as u32,
        BODIES_LENGTH as u32,
        (capacity * PROPOSAL_SIZE) as u32,
        (SHARES_ENTRIES + capacity) as u32,
        graph as u32,
        (MOST_WORKERS * count) as u32,
        (capacity * EVENT_SIZE) as u32,
        (capacity * CHANGE_SIZE) as u32,
        capacity as u32,
    ]
}

#[tactic(auto, using(crate::specs::CallLaws::lengths_answer_long, crate::specs::CallLaws::lengths_none, crate::specs::CallLaws::lengths_most, crate::specs::CallLaws::lengths_done))]
fn lengths_called(capacity: u32, answer: &mut [u32]) -> Result<(), Refusal>
    ensures { LengthsCalled capacity answer.old answer.new (done_number (done_answer result)) }
{
    if answer.len() != LENGTHS_LENGTH {
        return Err(Refusal::WrongLength);
    }
    if capacity == 0 {
        return Err(Refusal::WrongLength);
    }
    if MOST_CONTACTS < capacity as usize {
        return Err(Refusal::WrongLength);
    }
    let words = lengths_words(capacity as usize);
    store_words(answer, 0, &words);
    Ok(())
}

pub fn sardinerod_lengths(capacity: u32, answer: &mut [u32]) -> u32
    ensures { LengthsCalled capacity answer.old answer.new result }
{
    done_number(lengths_called(capacity, answer))
}

#[tactic(auto, unfolding(crate::specs::Layout::layout_words))]
fn layout_words() -> [u32; LAYOUT_LENGTH]
    ensures { result ≡ layout_words }
{
    LAYOUT
}

#[tactic(auto, using(crate::specs::CallLaws::layout_answer_long, crate::specs::CallLaws::layout_done))]
fn layout_called(answer: &mut [u32]) -> Result<(), Refusal>
    ensures { LayoutCalled answer.old answer.new (done_number (done_answer result)) }
{
    if answer.len() != LAYOUT_LENGTH {
        return Err(Refusal::WrongLength);
    }
    let words = layout_words();
    store_words(answer, 0, &words);
    Ok(())
}

pub fn sardinerod_layout(answer: &mut [u32]) -> u32
    ensures { LayoutCalled answer.old answer.new result }
{
    done_number(layout_called(answer))
}
