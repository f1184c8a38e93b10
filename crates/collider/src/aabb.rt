// A collider's axis-aligned bounding box. From `ColliderAabb` of avian's collider/mod.rs.
ghost use Rattle.std.specs.Prelude.{◌≡◌};
ghost use Rattle.rules.specs.Sides.{overlaps_on};
ghost use Rattle.collider.specs.Boxes.{grown, intersecting};

use math::vec::Vec3;

#[derive(Clone, Copy, PartialEq, Debug)]
pub struct ColliderAabb {
    pub min: Vec3,
    pub max: Vec3,
}

// On one axis: min1 ≤ max2 and max1 ≥ min2.
fn overlaps_on(min1: f32, max1: f32, min2: f32, max2: f32) -> bool
    ensures { result ≡ overlaps_on min1 max1 min2 max2 }
{
    min1 <= max2 && max1 >= min2
}

impl ColliderAabb {
    // Larger by the amount in each direction.
    #[tactic(auto, unfolding(crate::specs::Boxes::grown))]
    pub fn grow(self, amount: f32) -> ColliderAabb
        ensures { result ≡ grown self amount }
    {
        ColliderAabb {
            min: Vec3 {
                x: self.min.x - amount,
                y: self.min.y - amount,
                z: self.min.z - amount,
            },
            max: Vec3 {
                x: self.max.x + amount,
                y: self.max.y + amount,
                z: self.max.z + amount,
            },
        }
    }

    #[tactic(auto, unfolding(crate::specs::Boxes::intersecting))]
    pub fn intersects(self, other: ColliderAabb) -> bool
        ensures { result ≡ intersecting self other }
    {
        overlaps_on(self.min.x, self.max.x, other.min.x, other.max.x)
            && (overlaps_on(self.min.y, self.max.y, other.min.y, other.max.y)
                && overlaps_on(self.min.z, self.max.z, other.min.z, other.max.z))
    }
}
