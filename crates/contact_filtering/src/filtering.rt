// A proposed point, moved and held against the contact distance: rule 9. From avian's `update_contacts`.
ghost use Rattle.std.specs.Prelude.{◌≡◌};
ghost use Rattle.rules.specs.Filtering.{moved_anchor, normal_speed_at, moved_point, stays};
ghost use Rattle.collider.specs.Views.{plain_side};
ghost use Rattle.contact_types.specs.Views.{point_of};
ghost use Rattle.proposals.specs.Views.{proposed_of};

use collider::side::Side;
use contact_parameters::surface::Surface;
use contact_types::contact_point::ContactPoint;
use math::vec::Vec3;
use proposals::proposal::ProposedPoint;

// What a pair's proposed points are moved by and held against.
#[derive(Clone, Copy)]
pub struct Filtering {
    pub step_time: f32,
    pub a: Side,
    pub b: Side,
    pub surface: Surface,
}

// Relative to the body's centre of mass.
#[tactic(auto, unfolding(rules::specs::Filtering::moved_anchor))]
fn moved_anchor(side: Side, anchor: Vec3) -> Vec3
    ensures { result ≡ moved_anchor (plain_side side) anchor }
{
    anchor + (side.offset - side.world_com)
}

// The relative velocity along the normal at a point, from the velocities as they are.
#[tactic(auto, unfolding(rules::specs::Filtering::normal_speed_at))]
fn normal_speed(a: Side, b: Side, anchor1: Vec3, anchor2: Vec3, normal: Vec3) -> f32
    ensures { result ≡ normal_speed_at (plain_side a) (plain_side b) anchor1 anchor2 normal }
{
    let linear = b.linear_velocity - a.linear_velocity;
    let turn2 = b.angular_velocity.cross(anchor2);
    let turn1 = a.angular_velocity.cross(anchor1);
    (linear + turn2 - turn1).dot(normal)
}

// The margins deepen the point, and that is its base.
#[tactic(auto, unfolding(rules::specs::Filtering::moved_point, contact_types::specs::Points::new_point, contact_types::specs::Points::with_features))]
pub fn moved_point(a: Side, b: Side, margins: f32, normal: Vec3, p: ProposedPoint) -> ContactPoint
    ensures { point_of result ≡ moved_point (plain_side a) (plain_side b) margins normal (proposed_of p) }
{
    let anchor1 = moved_anchor(a, p.anchor1);
    let anchor2 = moved_anchor(b, p.anchor2);
    let speed = normal_speed(a, b, anchor1, anchor2, normal);
    let penetration = p.penetration + margins;
    let mut new = ContactPoint::new(anchor1, anchor2, p.point, penetration);
    new.normal_speed = speed;
    new.with_feature_ids(p.feature_id1, p.feature_id2)
}

// The point is near enough, or will be within the step. The distance has no margins.
#[tactic(auto, unfolding(rules::specs::Filtering::stays))]
pub fn stays(step_time: f32, distance: f32, p: ContactPoint) -> bool
    ensures { result ≡ stays step_time distance (point_of p) }
{
    -p.penetration < distance || p.normal_speed * step_time - p.penetration < distance
}

impl Filtering {
    pub fn moved_point(&self, normal: Vec3, p: ProposedPoint) -> ContactPoint
        ensures { point_of result ≡ moved_point (plain_side self.now.a) (plain_side self.now.b) self.now.surface.margins normal (proposed_of p) }
    {
        moved_point(self.a, self.b, self.surface.margins, normal, p)
    }

    pub fn stays(&self, p: &ContactPoint) -> bool
        ensures { result ≡ stays self.now.step_time self.now.surface.effective_speculative (point_of p.now) }
    {
        stays(self.step_time, self.surface.effective_speculative, *p)
    }
}
