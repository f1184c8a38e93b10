// A pair that an update goes on with: its boxes overlap, and its layers interact.
use collider::collider_record::ColliderRecord;
use collider::side::Side;

// Two colliders, and what is read of their bodies, under the rules' names.
#[derive(Clone, Copy)]
pub struct OverlappingPair {
    pub c1: ColliderRecord,
    pub c2: ColliderRecord,
    pub a: Side,
    pub b: Side,
}
