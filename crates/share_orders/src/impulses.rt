// The impulses that a solver writes into the stored points between two steps.
ghost use Rattle.std.specs.Prelude.{◌<◌, ◌*◌};
ghost use Rattle.rules.specs.Limits.{stored_points, pair_manifolds};

use crate::draws::{draw, float};
use crate::places::{CAPACITY, RECORDS_PLACE};
use case_draws::draws::slot;
use case_draws::numbers::{
    CONTACT_FIRST_MANIFOLD, CONTACT_SIZE, IMPULSES, MANIFOLD_POINTS, MANIFOLD_SIZE, MANIFOLDS,
    POINT_SIZE, STORED_POINTS,
};
use case_draws::places::put;

// Points of a contact, and of the graph.
const PAIR_POINTS: u32 = MANIFOLDS * STORED_POINTS;

const GRAPH_POINTS: u32 = CAPACITY * PAIR_POINTS;

// Where the first point of the first contact begins.
const FIRST_POINT: u32 = RECORDS_PLACE + CONTACT_FIRST_MANIFOLD + MANIFOLD_POINTS;

// Where the p-th of all points of the graph begins.
fn point_at(p: u32) -> u32
    requires { p < 8 * (pair_manifolds * stored_points) }
{
    FIRST_POINT
        + p / PAIR_POINTS * CONTACT_SIZE
        + p % PAIR_POINTS / STORED_POINTS * MANIFOLD_SIZE
        + p % STORED_POINTS * POINT_SIZE
}

// In one of two points.
pub fn write_impulses(graph: &mut [u32], key: u32) {
    for p in 0..GRAPH_POINTS {
        let own = draw(key, slot(500, p));
        if own % 2 == 0 {
            for k in IMPULSES {
                put(graph, slot(point_at(p), k), float(own, k));
            }
        }
    }
}
