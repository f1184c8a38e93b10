// The places of the damaged graph: of the list, the free ids, and the records of its four contacts.
use case_draws::numbers::{
    CONTACT_BODY1_NUMBER, CONTACT_BODY2, CONTACT_BODY2_NUMBER, CONTACT_CACHE, CONTACT_CACHED,
    CONTACT_COLLIDER1, CONTACT_COLLIDER2, CONTACT_COUNT_CHANGE, CONTACT_FIRST_MANIFOLD,
    CONTACT_MANIFOLDS, CONTACT_PAIR_INDEX, CONTACT_SIZE, GRAPH_CONTACT_SIZE, GRAPH_IDS, GRAPH_LIST,
    GRAPH_LISTS, MANIFOLD_COUNT, MANIFOLD_POINTS, MANIFOLD_SIZE, MANIFOLDS, MOST_CONTACTS,
    POINT_SIZE, STORED_POINTS,
};
use layout::limits::{BODIES, COLLIDERS};

pub const CAPACITY: u32 = 4;

pub const GRAPH_LENGTH: usize = (GRAPH_LIST + GRAPH_CONTACT_SIZE * CAPACITY) as usize;

// The list's second and third place, and its end.
pub const LIST_1: u32 = GRAPH_LIST + 1;

pub const LIST_2: u32 = GRAPH_LIST + 2;

pub const LIST_END: u32 = GRAPH_LIST + CAPACITY;

// The second and third place of the free ids, and their end.
const FREE_PLACE: u32 = GRAPH_LIST + GRAPH_LISTS * CAPACITY;

pub const FREE_1: u32 = FREE_PLACE + 1;

pub const FREE_2: u32 = FREE_PLACE + 2;

pub const FREE_END: u32 = FREE_PLACE + CAPACITY;

// The records of contacts 0 to 3, and the end of the last.
pub const RECORD_0: u32 = GRAPH_LIST + GRAPH_IDS * CAPACITY;

pub const RECORD_1: u32 = RECORD_0 + CONTACT_SIZE;

pub const RECORD_2: u32 = RECORD_1 + CONTACT_SIZE;

pub const RECORD_3: u32 = RECORD_2 + CONTACT_SIZE;

pub const RECORD_END: u32 = RECORD_3 + CONTACT_SIZE;

// ---- Contact 0.
pub const COLLIDER1_0: u32 = RECORD_0 + CONTACT_COLLIDER1;

pub const COLLIDER2_0: u32 = RECORD_0 + CONTACT_COLLIDER2;

pub const BODY1_NUMBER_0: u32 = RECORD_0 + CONTACT_BODY1_NUMBER;

pub const BODY2_0: u32 = RECORD_0 + CONTACT_BODY2;

pub const BODY2_NUMBER_0: u32 = RECORD_0 + CONTACT_BODY2_NUMBER;

pub const PAIR_INDEX_0: u32 = RECORD_0 + CONTACT_PAIR_INDEX;

pub const COUNT_CHANGE_0: u32 = RECORD_0 + CONTACT_COUNT_CHANGE;

pub const CACHE_0: u32 = RECORD_0 + CONTACT_CACHE;

pub const CACHED_0: u32 = RECORD_0 + CONTACT_CACHED;

// The number of its manifolds, and of the points of each of the six.
pub const MANIFOLDS_0: u32 = RECORD_0 + CONTACT_MANIFOLDS;

pub const FIRST_MANIFOLD_0: u32 = RECORD_0 + CONTACT_FIRST_MANIFOLD;

pub const POINTS_0: u32 = FIRST_MANIFOLD_0 + MANIFOLD_COUNT;

pub const POINTS_1: u32 = POINTS_0 + MANIFOLD_SIZE;

pub const POINTS_2: u32 = POINTS_1 + MANIFOLD_SIZE;

pub const POINTS_3: u32 = POINTS_2 + MANIFOLD_SIZE;

pub const POINTS_4: u32 = POINTS_3 + MANIFOLD_SIZE;

pub const POINTS_5: u32 = POINTS_4 + MANIFOLD_SIZE;

// The second point of the first manifold, and the second manifold.
pub const SECOND_POINT_0: u32 = FIRST_MANIFOLD_0 + MANIFOLD_POINTS + POINT_SIZE;

pub const SECOND_MANIFOLD_0: u32 = FIRST_MANIFOLD_0 + MANIFOLD_SIZE;

// ---- The others.
pub const PAIR_INDEX_1: u32 = RECORD_1 + CONTACT_PAIR_INDEX;

pub const COLLIDER1_2: u32 = RECORD_2 + CONTACT_COLLIDER1;

pub const COLLIDER2_2: u32 = RECORD_2 + CONTACT_COLLIDER2;

pub const BODY1_NUMBER_2: u32 = RECORD_2 + CONTACT_BODY1_NUMBER;

pub const BODY2_NUMBER_2: u32 = RECORD_2 + CONTACT_BODY2_NUMBER;

pub const PAIR_INDEX_2: u32 = RECORD_2 + CONTACT_PAIR_INDEX;

pub const MANIFOLDS_2: u32 = RECORD_2 + CONTACT_MANIFOLDS;

pub const COLLIDER1_3: u32 = RECORD_3 + CONTACT_COLLIDER1;

pub const COLLIDER2_3: u32 = RECORD_3 + CONTACT_COLLIDER2;

pub const PAIR_INDEX_3: u32 = RECORD_3 + CONTACT_PAIR_INDEX;

// ---- One past the limits, and the last collider and body.
pub const TOO_MANY_CONTACTS: u32 = MOST_CONTACTS + 1;

pub const OVER_CAPACITY: u32 = CAPACITY + 1;

pub const TOO_MANY_MANIFOLDS: u32 = MANIFOLDS + 1;

pub const TOO_MANY_POINTS: u32 = STORED_POINTS + 1;

pub const LAST_COLLIDER: u32 = COLLIDERS - 1;

pub const LAST_BODY: u32 = BODIES - 1;

pub const LARGEST: u32 = u32::MAX;
