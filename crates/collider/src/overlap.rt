// Rule 2 of one pair's update: whether the colliders' boxes overlap, and whether their layers interact.
ghost use Rattle.std.specs.Prelude.{◌≡◌};
ghost use Rattle.rules.specs.Sides.{overlap, interact};
ghost use Rattle.collider.specs.Views.{plain_collider};
ghost use Rattle.collider.specs.Boxes.{box_of, layers_of, grown};

use crate::aabb::ColliderAabb;
use crate::collider_record::ColliderRecord;
use crate::layers::CollisionLayers;

impl ColliderRecord {
    fn aabb(self) -> ColliderAabb
        ensures { result ≡ box_of self }
    {
        let min = self.lower;
        let max = self.upper;
        ColliderAabb { min, max }
    }

    fn grown_aabb(self, amount: f32) -> ColliderAabb
        ensures { result ≡ grown (box_of self) amount }
    {
        self.aabb().grow(amount)
    }

    fn layers(self) -> CollisionLayers
        ensures { result ≡ layers_of self }
    {
        CollisionLayers {
            memberships: self.memberships,
            filters: self.filters,
        }
    }
}

// Box 2 alone is grown.
#[tactic(auto, using(crate::specs::RuleLaws::overlap_by_boxes))]
pub fn overlap(c1: ColliderRecord, c2: ColliderRecord, speculative: f32) -> bool
    ensures { result ≡ overlap (plain_collider c1) (plain_collider c2) speculative }
{
    c1.aabb().intersects(c2.grown_aabb(speculative))
}

#[tactic(auto, unfolding(rules::specs::Sides::interact))]
pub fn layers_interact(c1: ColliderRecord, c2: ColliderRecord) -> bool
    ensures { result ≡ interact (plain_collider c1) (plain_collider c2) }
{
    c1.layers().interacts_with(c2.layers())
}
