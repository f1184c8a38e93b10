// The limits, places and sizes of the crate layout as u32, as the words of a row are counted here.

// ---- The limits.
pub const MOST_CONTACTS: u32 = layout::limits::MOST_CONTACTS as u32;

pub const MANIFOLDS: u32 = layout::limits::MANIFOLDS as u32;

pub const STORED_POINTS: u32 = layout::limits::STORED_POINTS as u32;

pub const PROPOSED_POINTS: u32 = layout::limits::PROPOSED_POINTS as u32;

pub const MOST_WORKERS: u32 = layout::limits::MOST_WORKERS as u32;

// ---- Settings.
pub const SETTINGS_STEP_TIME: u32 = layout::settings::SETTINGS_STEP_TIME as u32;

pub const SETTINGS_LENGTH_UNIT: u32 = layout::settings::SETTINGS_LENGTH_UNIT as u32;

pub const SETTINGS_CONTACT_TOLERANCE: u32 = layout::settings::SETTINGS_CONTACT_TOLERANCE as u32;

pub const SETTINGS_RECYCLE_DISTANCE: u32 = layout::settings::SETTINGS_RECYCLE_DISTANCE as u32;

pub const SETTINGS_RECYCLE_COSINE: u32 = layout::settings::SETTINGS_RECYCLE_COSINE as u32;

pub const SETTINGS_MATCH_CONTACTS: u32 = layout::settings::SETTINGS_MATCH_CONTACTS as u32;

pub const SETTINGS_FRICTION: u32 = layout::settings::SETTINGS_FRICTION as u32;

pub const SETTINGS_RESTITUTION: u32 = layout::settings::SETTINGS_RESTITUTION as u32;

pub const SETTINGS_MATCHING: u32 = layout::settings::SETTINGS_MATCHING as u32;

pub const SETTINGS_MATCHING_VALUE: u32 = SETTINGS_MATCHING + 1;

pub const SETTINGS_LENGTH: u32 = layout::settings::SETTINGS_LENGTH as u32;

// ---- A collider.
pub const COLLIDER_PRESENT: u32 = layout::collider::COLLIDER_PRESENT as u32;

pub const COLLIDER_BODY: u32 = layout::collider::COLLIDER_BODY as u32;

pub const COLLIDER_LOWER: u32 = layout::collider::COLLIDER_LOWER as u32;

pub const COLLIDER_UPPER: u32 = layout::collider::COLLIDER_UPPER as u32;

pub const COLLIDER_POSITION: u32 = layout::collider::COLLIDER_POSITION as u32;

pub const COLLIDER_MEMBERSHIPS: u32 = layout::collider::COLLIDER_MEMBERSHIPS as u32;

pub const COLLIDER_FILTERS: u32 = layout::collider::COLLIDER_FILTERS as u32;

pub const COLLIDER_FRICTION: u32 = layout::collider::COLLIDER_FRICTION as u32;

pub const COLLIDER_RESTITUTION: u32 = layout::collider::COLLIDER_RESTITUTION as u32;

pub const COLLIDER_MARGIN: u32 = layout::collider::COLLIDER_MARGIN as u32;

pub const COLLIDER_SENSOR: u32 = layout::collider::COLLIDER_SENSOR as u32;

pub const COLLIDER_SIZE: u32 = layout::collider::COLLIDER_SIZE as u32;

pub const COLLIDER_BODY_NUMBER: u32 = COLLIDER_BODY + 1;

// ---- A body.
pub const BODY_PRESENT: u32 = layout::body::BODY_PRESENT as u32;

pub const BODY_STATIC: u32 = layout::body::BODY_STATIC as u32;

pub const BODY_POSITION: u32 = layout::body::BODY_POSITION as u32;

pub const BODY_ROTATION: u32 = layout::body::BODY_ROTATION as u32;

pub const BODY_CENTER_OF_MASS: u32 = layout::body::BODY_CENTER_OF_MASS as u32;

pub const BODY_LINEAR_VELOCITY: u32 = layout::body::BODY_LINEAR_VELOCITY as u32;

pub const BODY_FRICTION: u32 = layout::body::BODY_FRICTION as u32;

pub const BODY_MARGIN: u32 = layout::body::BODY_MARGIN as u32;

pub const BODY_SPECULATIVE_MAXIMUM: u32 = layout::body::BODY_SPECULATIVE_MAXIMUM as u32;

pub const BODY_SWEEP_RADIUS: u32 = layout::body::BODY_SWEEP_RADIUS as u32;

pub const BODY_SIZE: u32 = layout::body::BODY_SIZE as u32;

// ---- A proposal, a proposed manifold and a proposed point.
pub const PROPOSED_POINT_ANCHOR1: u32 = layout::proposal::PROPOSED_POINT_ANCHOR1 as u32;

pub const PROPOSED_POINT_ANCHOR2: u32 = layout::proposal::PROPOSED_POINT_ANCHOR2 as u32;

pub const PROPOSED_POINT_POSITION: u32 = layout::proposal::PROPOSED_POINT_POSITION as u32;

pub const PROPOSED_POINT_PENETRATION: u32 = layout::proposal::PROPOSED_POINT_PENETRATION as u32;

pub const PROPOSED_POINT_FEATURES: u32 = layout::proposal::PROPOSED_POINT_FEATURES as u32;

pub const PROPOSED_POINT_FEATURE2: u32 = layout::proposal::PROPOSED_POINT_FEATURE2 as u32;

pub const PROPOSED_POINT_SIZE: u32 = layout::proposal::PROPOSED_POINT_SIZE as u32;

pub const PROPOSED_MANIFOLD_COUNT: u32 = layout::proposal::PROPOSED_MANIFOLD_COUNT as u32;

pub const PROPOSED_MANIFOLD_NORMAL: u32 = layout::proposal::PROPOSED_MANIFOLD_NORMAL as u32;

pub const PROPOSED_MANIFOLD_POINTS: u32 = layout::proposal::PROPOSED_MANIFOLD_POINTS as u32;

pub const PROPOSED_MANIFOLD_SIZE: u32 = layout::proposal::PROPOSED_MANIFOLD_SIZE as u32;

pub const PROPOSAL_HOOK: u32 = layout::proposal::PROPOSAL_HOOK as u32;

pub const PROPOSAL_COUNT: u32 = layout::proposal::PROPOSAL_COUNT as u32;

pub const PROPOSAL_MANIFOLDS: u32 = layout::proposal::PROPOSAL_MANIFOLDS as u32;

pub const PROPOSAL_SIZE: u32 = layout::proposal::PROPOSAL_SIZE as u32;

// ---- A stored point.
pub const POINT_ANCHOR1: u32 = layout::point::POINT_ANCHOR1 as u32;

pub const POINT_POSITION: u32 = layout::point::POINT_POSITION as u32;

pub const POINT_PENETRATION: u32 = layout::point::POINT_PENETRATION as u32;

pub const POINT_BASE_PENETRATION: u32 = layout::point::POINT_BASE_PENETRATION as u32;

pub const POINT_NORMAL_IMPULSE: u32 = layout::point::POINT_NORMAL_IMPULSE as u32;

pub const POINT_WARM_START_NORMAL_IMPULSE: u32 =
    layout::point::POINT_WARM_START_NORMAL_IMPULSE as u32;

pub const POINT_WARM_START_TANGENT_IMPULSE: u32 =
    layout::point::POINT_WARM_START_TANGENT_IMPULSE as u32;

pub const POINT_WARM_START_TANGENT_IMPULSE_Y: u32 =
    layout::point::POINT_WARM_START_TANGENT_IMPULSE_Y as u32;

pub const POINT_FEATURES: u32 = layout::point::POINT_FEATURES as u32;

pub const POINT_FEATURE2: u32 = layout::point::POINT_FEATURE2 as u32;

pub const POINT_SIZE: u32 = layout::point::POINT_SIZE as u32;

// The words that a solver writes.
pub const IMPULSES: [u32; 4] = [
    POINT_NORMAL_IMPULSE,
    POINT_WARM_START_NORMAL_IMPULSE,
    POINT_WARM_START_TANGENT_IMPULSE,
    POINT_WARM_START_TANGENT_IMPULSE_Y,
];

// ---- A stored manifold.
pub const MANIFOLD_COUNT: u32 = layout::manifold::MANIFOLD_COUNT as u32;

pub const MANIFOLD_NORMAL: u32 = layout::manifold::MANIFOLD_NORMAL as u32;

pub const MANIFOLD_FRICTION: u32 = layout::manifold::MANIFOLD_FRICTION as u32;

pub const MANIFOLD_POINTS: u32 = layout::manifold::MANIFOLD_POINTS as u32;

pub const MANIFOLD_SIZE: u32 = layout::manifold::MANIFOLD_SIZE as u32;

// ---- A contact's record.
pub const CONTACT_COLLIDER1: u32 = layout::contact::CONTACT_COLLIDER1 as u32;

pub const CONTACT_COLLIDER2: u32 = layout::contact::CONTACT_COLLIDER2 as u32;

pub const CONTACT_BODY1: u32 = layout::contact::CONTACT_BODY1 as u32;

pub const CONTACT_BODY1_NUMBER: u32 = layout::contact::CONTACT_BODY1_NUMBER as u32;

pub const CONTACT_BODY2: u32 = layout::contact::CONTACT_BODY2 as u32;

pub const CONTACT_BODY2_NUMBER: u32 = layout::contact::CONTACT_BODY2_NUMBER as u32;

pub const CONTACT_PAIR_INDEX: u32 = layout::contact::CONTACT_PAIR_INDEX as u32;

pub const CONTACT_EDGE_FLAGS: u32 = layout::contact::CONTACT_EDGE_FLAGS as u32;

pub const EDGE_TOUCHING: u32 = layout::contact::EDGE_TOUCHING as u32;

pub const EDGE_CONTACT_EVENTS: u32 = layout::contact::EDGE_CONTACT_EVENTS as u32;

pub const PAIR_TOUCHING: u32 = layout::contact::PAIR_TOUCHING as u32;

pub const PAIR_DISJOINT_AABB: u32 = layout::contact::PAIR_DISJOINT_AABB as u32;

pub const PAIR_STARTED_TOUCHING: u32 = layout::contact::PAIR_STARTED_TOUCHING as u32;

pub const PAIR_STOPPED_TOUCHING: u32 = layout::contact::PAIR_STOPPED_TOUCHING as u32;

pub const PAIR_GENERATE_CONSTRAINTS: u32 = layout::contact::PAIR_GENERATE_CONSTRAINTS as u32;

pub const PAIR_STARTED_GENERATING_CONSTRAINTS: u32 =
    layout::contact::PAIR_STARTED_GENERATING_CONSTRAINTS as u32;

pub const PAIR_STATIC1: u32 = layout::contact::PAIR_STATIC1 as u32;

pub const PAIR_STATIC2: u32 = layout::contact::PAIR_STATIC2 as u32;

pub const PAIR_MODIFY_CONTACTS: u32 = layout::contact::PAIR_MODIFY_CONTACTS as u32;

pub const CONTACT_COUNT_CHANGE: u32 = layout::contact::CONTACT_COUNT_CHANGE as u32;

pub const CONTACT_SPECULATIVE_DISTANCE: u32 = layout::contact::CONTACT_SPECULATIVE_DISTANCE as u32;

pub const CONTACT_CACHE: u32 = layout::contact::CONTACT_CACHE as u32;

pub const CACHE_ROTATION1: u32 = layout::contact::CACHE_ROTATION1 as u32;

pub const CACHE_ROTATION2: u32 = layout::contact::CACHE_ROTATION2 as u32;

pub const CACHE_RELATIVE_TRANSLATION: u32 = layout::contact::CACHE_RELATIVE_TRANSLATION as u32;

pub const CACHE_RELATIVE_ROTATION: u32 = layout::contact::CACHE_RELATIVE_ROTATION as u32;

pub const CACHE_SIZE: u32 = layout::contact::CACHE_SIZE as u32;

pub const CONTACT_MANIFOLDS: u32 = layout::contact::CONTACT_MANIFOLDS as u32;

pub const CONTACT_FIRST_MANIFOLD: u32 = layout::contact::CONTACT_FIRST_MANIFOLD as u32;

pub const CONTACT_SIZE: u32 = layout::contact::CONTACT_SIZE as u32;

// The words of the colliders, and those from the place in the list as far as the cache.
pub const CONTACT_COLLIDERS_SIZE: u32 = CONTACT_BODY1 - CONTACT_COLLIDER1;

pub const CONTACT_MIDDLE_SIZE: u32 = CONTACT_CACHE - CONTACT_PAIR_INDEX;

// Behind the mark of the cache, and its words.
pub const CONTACT_CACHED: u32 = CONTACT_CACHE + CACHE_ROTATION1;

pub const CACHED_SIZE: u32 = CACHE_SIZE - CACHE_ROTATION1;

// ---- The graph's head.
pub const GRAPH_CAPACITY: u32 = layout::graph::GRAPH_CAPACITY as u32;

pub const GRAPH_GIVEN: u32 = layout::graph::GRAPH_GIVEN as u32;

pub const GRAPH_LISTED: u32 = layout::graph::GRAPH_LISTED as u32;

pub const GRAPH_FREED: u32 = layout::graph::GRAPH_FREED as u32;

pub const GRAPH_LIST: u32 = layout::graph::GRAPH_LIST as u32;

// Behind the head stand the list, the free ids and the records: the number of lists before the free ids, and of each contact the
// places for its id and all its words.
pub const GRAPH_LISTS: u32 = 1;

pub const GRAPH_IDS: u32 = GRAPH_LISTS + 1;

pub const GRAPH_CONTACT_SIZE: u32 = GRAPH_IDS + CONTACT_SIZE;

// ---- Shares.
pub const SHARES_WORKERS: u32 = layout::shares::SHARES_WORKERS as u32;

pub const SHARES_COUNTS: u32 = layout::shares::SHARES_COUNTS as u32;

pub const SHARES_ENTRIES: u32 = layout::shares::SHARES_ENTRIES as u32;

// ---- An event.
pub const EVENT_SIZE: u32 = layout::event::EVENT_SIZE as u32;

// ---- A constraint change.
pub const CHANGE_SIZE: u32 = layout::change::CHANGE_SIZE as u32;
