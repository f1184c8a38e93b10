// Damages of what is recorded, each condition of refusal 2 by itself where it can be.
use crate::case::{Damage, print_damage};
use crate::places::{
    BODY1_NUMBER_0, BODY1_NUMBER_2, BODY2_0, BODY2_NUMBER_0, BODY2_NUMBER_2, COLLIDER1_0,
    COLLIDER1_2, COLLIDER1_3, COLLIDER2_0, COLLIDER2_2, COLLIDER2_3, FREE_1, FREE_2, LARGEST,
    LIST_1, LIST_2, MANIFOLDS_0, MANIFOLDS_2, OVER_CAPACITY, PAIR_INDEX_0, PAIR_INDEX_1,
    PAIR_INDEX_2, PAIR_INDEX_3, POINTS_0, POINTS_5, RECORD_0, RECORD_2, TOO_MANY_CONTACTS,
    TOO_MANY_MANIFOLDS, TOO_MANY_POINTS,
};
use case_draws::numbers::{
    CONTACT_BODY1, CONTACT_BODY2, CONTACT_CACHE, EDGE_CONTACT_EVENTS, EDGE_TOUCHING,
    GRAPH_CAPACITY, GRAPH_FREED, GRAPH_GIVEN, GRAPH_LIST, GRAPH_LISTED, MANIFOLDS,
    PAIR_DISJOINT_AABB, PAIR_GENERATE_CONSTRAINTS, PAIR_MODIFY_CONTACTS,
    PAIR_STARTED_GENERATING_CONSTRAINTS, PAIR_STARTED_TOUCHING, PAIR_STATIC1, PAIR_STATIC2,
    PAIR_STOPPED_TOUCHING, PAIR_TOUCHING,
};
use layout::contact::MARKS_SIZE;
use layout::limits::{BODIES, COLLIDERS};
use std::io;
use std::io::Write;

// Of a record: the bodies', those of edge and pair, the cache's.
const MARKS_COUNT: usize = 3 + MARKS_SIZE;

const MARKS: [u32; MARKS_COUNT] = [
    CONTACT_BODY1,
    CONTACT_BODY2,
    EDGE_TOUCHING,
    EDGE_CONTACT_EVENTS,
    PAIR_TOUCHING,
    PAIR_DISJOINT_AABB,
    PAIR_STARTED_TOUCHING,
    PAIR_STOPPED_TOUCHING,
    PAIR_GENERATE_CONSTRAINTS,
    PAIR_STARTED_GENERATING_CONSTRAINTS,
    PAIR_STATIC1,
    PAIR_STATIC2,
    PAIR_MODIFY_CONTACTS,
    CONTACT_CACHE,
];

// Refusal 1, which comes before 2.
pub const CAPACITIES: [Damage; 5] = [
    ("capacity 0", &[(GRAPH_CAPACITY, 0)]),
    ("capacity 3", &[(GRAPH_CAPACITY, 3)]),
    ("capacity 5", &[(GRAPH_CAPACITY, 5)]),
    ("capacity 257", &[(GRAPH_CAPACITY, TOO_MANY_CONTACTS)]),
    (
        "largest capacity, a collider too",
        &[(GRAPH_CAPACITY, LARGEST), (COLLIDER1_0, COLLIDERS)],
    ),
];

pub const NUMBERS: [Damage; 8] = [
    ("collider 1", &[(COLLIDER1_0, COLLIDERS)]),
    ("collider 2", &[(COLLIDER2_0, COLLIDERS)]),
    ("collider 1 of the last", &[(COLLIDER1_2, COLLIDERS)]),
    ("largest collider 2 of the last", &[(COLLIDER2_2, LARGEST)]),
    ("body 1", &[(BODY1_NUMBER_0, BODIES)]),
    ("body 1 of the last", &[(BODY1_NUMBER_2, BODIES)]),
    ("body 2 of the last", &[(BODY2_NUMBER_2, BODIES)]),
    (
        "body 2 by a mark",
        &[(BODY2_0, 1), (BODY2_NUMBER_0, BODIES)],
    ),
];

pub const COUNTS: [Damage; 10] = [
    ("7 manifolds", &[(MANIFOLDS_0, TOO_MANY_MANIFOLDS)]),
    (
        "7 manifolds of the last",
        &[(MANIFOLDS_2, TOO_MANY_MANIFOLDS)],
    ),
    ("5 points", &[(MANIFOLDS_0, 1), (POINTS_0, TOO_MANY_POINTS)]),
    (
        "5 points in manifold 6",
        &[(MANIFOLDS_0, MANIFOLDS), (POINTS_5, TOO_MANY_POINTS)],
    ),
    (
        "5 given, all known",
        &[
            (GRAPH_GIVEN, OVER_CAPACITY),
            (GRAPH_FREED, 3),
            (FREE_1, 3),
            (FREE_2, 4),
        ],
    ),
    ("5 listed", &[(GRAPH_LISTED, OVER_CAPACITY)]),
    ("5 free", &[(GRAPH_FREED, OVER_CAPACITY)]),
    ("largest given", &[(GRAPH_GIVEN, LARGEST)]),
    ("largest listed", &[(GRAPH_LISTED, LARGEST)]),
    ("largest free", &[(GRAPH_FREED, LARGEST)]),
];

pub const IDS: [Damage; 10] = [
    ("free twice", &[(GRAPH_FREED, 2), (FREE_1, 1)]),
    ("free and standing", &[(GRAPH_FREED, 2), (FREE_1, 0)]),
    (
        "free and listed",
        &[(GRAPH_LISTED, 3), (LIST_2, 1), (PAIR_INDEX_1, 2)],
    ),
    (
        "free and listed, another's place",
        &[(GRAPH_LISTED, 3), (LIST_2, 1), (PAIR_INDEX_1, 0)],
    ),
    ("neither, none free", &[(GRAPH_FREED, 0)]),
    ("neither, one more given", &[(GRAPH_GIVEN, 4)]),
    (
        "listed, never given",
        &[
            (GRAPH_LISTED, 3),
            (LIST_2, 3),
            (COLLIDER1_3, 1),
            (COLLIDER2_3, 2),
            (PAIR_INDEX_3, 2),
        ],
    ),
    ("largest listed id", &[(LIST_1, LARGEST)]),
    ("free, never given", &[(GRAPH_FREED, 2), (FREE_1, 3)]),
    ("largest free id", &[(GRAPH_FREED, 2), (FREE_1, LARGEST)]),
];

pub const PAIRS: [Damage; 8] = [
    ("pair twice", &[(COLLIDER1_2, 10), (COLLIDER2_2, 20)]),
    (
        "pair twice, turned",
        &[(COLLIDER1_2, 20), (COLLIDER2_2, 10)],
    ),
    (
        "lone collider twice",
        &[
            (COLLIDER1_0, 7),
            (COLLIDER2_0, 7),
            (COLLIDER1_2, 7),
            (COLLIDER2_2, 7),
        ],
    ),
    ("place of the other", &[(PAIR_INDEX_0, 1)]),
    ("place past the list", &[(PAIR_INDEX_0, 2)]),
    ("largest place", &[(PAIR_INDEX_2, LARGEST)]),
    ("listed twice", &[(LIST_1, 0)]),
    ("list turned", &[(GRAPH_LIST, 2), (LIST_1, 0)]),
];

// Each mark of the record that begins at a place becomes 2.
fn print_record_marks<W: Write>(out: &mut W, name: &str, at: u32) -> io::Result<()> {
    for mark in MARKS {
        write!(out, "{name}\t{mark}")?;
        print_damage(out, "", &[(at.wrapping_add(mark), 2)])?;
    }
    Ok(())
}

pub fn print_marks<W: Write>(out: &mut W) -> io::Result<()> {
    print_record_marks(out, "mark", RECORD_0)?;
    print_record_marks(out, "mark of the last", RECORD_2)
}
