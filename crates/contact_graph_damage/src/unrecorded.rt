// What is not refused: values at their limits, and damages of what is not recorded.
use crate::case::Filled;
use crate::places::{
    BODY1_NUMBER_0, BODY2_NUMBER_0, CACHE_0, CACHED_0, COLLIDER1_0, COLLIDER2_0, COUNT_CHANGE_0,
    FIRST_MANIFOLD_0, FREE_1, FREE_END, LAST_BODY, LAST_COLLIDER, LIST_2, LIST_END, MANIFOLDS_0,
    PAIR_INDEX_1, POINTS_0, POINTS_1, POINTS_2, POINTS_3, POINTS_4, POINTS_5, RECORD_1, RECORD_2,
    RECORD_3, RECORD_END, SECOND_MANIFOLD_0, SECOND_POINT_0,
};
use case_draws::numbers::{MANIFOLDS, STORED_POINTS};

pub const UNRECORDED: [Filled; 18] = [
    ("as built", &[], 0..0),
    (
        "last collider and body",
        &[(COLLIDER1_0, LAST_COLLIDER), (BODY1_NUMBER_0, LAST_BODY)],
        0..0,
    ),
    (
        "lone collider once",
        &[(COLLIDER1_0, 7), (COLLIDER2_0, 7)],
        0..0,
    ),
    (
        "6 manifolds of 4 points",
        &[
            (MANIFOLDS_0, MANIFOLDS),
            (POINTS_0, STORED_POINTS),
            (POINTS_1, STORED_POINTS),
            (POINTS_2, STORED_POINTS),
            (POINTS_3, STORED_POINTS),
            (POINTS_4, STORED_POINTS),
            (POINTS_5, STORED_POINTS),
        ],
        0..0,
    ),
    ("count change and distance", &[], COUNT_CHANGE_0..CACHE_0),
    ("list past its count", &[], LIST_2..LIST_END),
    ("list past its count, a standing id", &[(LIST_2, 0)], 0..0),
    ("free past their count", &[], FREE_1..FREE_END),
    ("free past their count, a standing id", &[(FREE_1, 0)], 0..0),
    ("record of a free id", &[], RECORD_1..RECORD_2),
    ("place of a free id", &[(PAIR_INDEX_1, 0)], 0..0),
    ("record never given", &[], RECORD_3..RECORD_END),
    ("body behind 0", &[(BODY2_NUMBER_0, 5000)], 0..0),
    ("cache behind 0", &[], CACHED_0..MANIFOLDS_0),
    ("cache behind 1", &[(CACHE_0, 1)], CACHED_0..MANIFOLDS_0),
    (
        "points past 1",
        &[(MANIFOLDS_0, 1), (POINTS_0, 1)],
        SECOND_POINT_0..SECOND_MANIFOLD_0,
    ),
    ("manifolds past 0", &[], FIRST_MANIFOLD_0..RECORD_1),
    (
        "manifolds past 1",
        &[(MANIFOLDS_0, 1), (POINTS_0, STORED_POINTS)],
        SECOND_MANIFOLD_0..RECORD_1,
    ),
];
