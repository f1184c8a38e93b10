// A collider by value, from its record. From avian's collider/mod.rs and collider_hierarchy/mod.rs.
ghost use Rattle.std.specs.Prelude.{◌≡◌, ◌<◌, length};
ghost use Rattle.rules.specs.Limits.{colliders};
ghost use Rattle.layout.specs.Collider.{collider_size, colliders_length};
ghost use Rattle.collider.specs.Recorded.{collider_at};
ghost use Rattle.collider.specs.Views.{recorded_collider, plain_collider_if};

use crate::coefficient::Coefficient;
use layout::collider::{
    COLLIDER_BODY, COLLIDER_FILTERS, COLLIDER_FRICTION, COLLIDER_LOWER, COLLIDER_MARGIN,
    COLLIDER_MEMBERSHIPS, COLLIDER_POSITION, COLLIDER_RESTITUTION, COLLIDER_SENSOR, COLLIDER_SIZE,
    COLLIDER_UPPER,
};
use math::vec::Vec3;
use words::load::{FromRow, load, load_present};

#[derive(Clone, Copy, PartialEq, Debug)]
pub struct ColliderRecord {
    pub body: Option<u32>,
    pub lower: Vec3,
    pub upper: Vec3,
    pub position: Vec3,
    pub memberships: u32,
    pub filters: u32,
    pub friction: Option<Coefficient>,
    pub restitution: Option<Coefficient>,
    pub margin: Option<f32>,
    pub sensor: bool,
}

// The record at a place, whose presence mark is set.
impl FromRow for ColliderRecord {
    ghost size = { collider_size };

    ghost at = { recorded_collider };

    #[tactic(auto, unfolding(crate::specs::Views::recorded_collider))]
    fn from_row(row: &[u32], from: usize) -> ColliderRecord {
        ColliderRecord {
            body: load(row, from + COLLIDER_BODY),
            lower: load(row, from + COLLIDER_LOWER),
            upper: load(row, from + COLLIDER_UPPER),
            position: load(row, from + COLLIDER_POSITION),
            memberships: load(row, from + COLLIDER_MEMBERSHIPS),
            filters: load(row, from + COLLIDER_FILTERS),
            friction: load(row, from + COLLIDER_FRICTION),
            restitution: load(row, from + COLLIDER_RESTITUTION),
            margin: load(row, from + COLLIDER_MARGIN),
            sensor: load(row, from + COLLIDER_SENSOR),
        }
    }
}

// Collider n, which may be absent.
#[tactic(auto, using(crate::specs::LoadedLaws::collider_present))]
pub fn load_collider(words: &[u32], n: u32) -> Option<ColliderRecord>
    requires { (n < colliders) × (length words.now ≡ colliders_length) }
    ensures { plain_collider_if result ≡ collider_at words.now n }
{
    load_present(words, n as usize * COLLIDER_SIZE)
}
