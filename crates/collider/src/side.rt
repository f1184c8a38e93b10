// Rule 3 of one pair's update: what is read of a side's body.
ghost use Rattle.std.specs.Prelude.{◌≡◌, None, Some};
ghost use Rattle.rules.specs.Sides.{side_of};
ghost use Rattle.collider.specs.Views.{plain_collider, plain_body, plain_body_if, plain_side};

use crate::body_record::BodyRecord;
use crate::coefficient::Coefficient;
use crate::collider_record::ColliderRecord;
use math::pose::Pose;
use math::vec::Vec3;

// A body's values again, beside a mark and not in an Option: an absent body gives zeros, and the formulas use them.
#[derive(Clone, Copy, PartialEq, Debug)]
pub struct Side {
    // The body is there.
    pub present: bool,
    // A static body.
    pub is_static: bool,
    // Collider position − body position.
    pub offset: Vec3,
    // Rotation times centre of mass.
    pub world_com: Vec3,
    pub pose: Pose,
    pub linear_velocity: Vec3,
    pub angular_velocity: Vec3,
    pub friction: Option<Coefficient>,
    pub margin: Option<f32>,
    pub speculative_maximum: Option<f32>,
    pub sweep_radius: f32,
}

#[tactic(auto, unfolding(rules::specs::Sides::side_of))]
fn present_side(c: ColliderRecord, b: BodyRecord) -> Side
    ensures { plain_side result ≡ side_of (plain_collider c) (Some (plain_body b)) }
{
    let pose = b.pose;
    let position = pose.position;
    let rotation = pose.rotation;
    let linear_velocity = b.linear_velocity;
    let angular_velocity = b.angular_velocity;
    let friction = b.friction;
    let margin = b.margin;
    let speculative_maximum = b.speculative_maximum;
    Side {
        present: true,
        is_static: b.is_static,
        offset: c.position - position,
        world_com: rotation.mul_vec3(b.center_of_mass),
        pose,
        linear_velocity,
        angular_velocity,
        friction,
        margin,
        speculative_maximum,
        sweep_radius: b.sweep_radius,
    }
}

// An absent body gives zeros (offset to the collider too), identity rotation and not static.
#[tactic(auto, unfolding(rules::specs::Sides::side_of))]
fn absent_side(c: ColliderRecord) -> Side
    ensures { plain_side result ≡ side_of (plain_collider c) None }
{
    Side {
        present: false,
        is_static: false,
        offset: Vec3::ZERO,
        world_com: Vec3::ZERO,
        pose: Pose::IDENTITY,
        linear_velocity: Vec3::ZERO,
        angular_velocity: Vec3::ZERO,
        friction: None,
        margin: None,
        speculative_maximum: None,
        sweep_radius: 0.0,
    }
}

pub fn side_of(c: ColliderRecord, b: Option<BodyRecord>) -> Side
    ensures { plain_side result ≡ side_of (plain_collider c) (plain_body_if b) }
{
    match b {
        Some(body) => present_side(c, body),
        None => absent_side(c),
    }
}
