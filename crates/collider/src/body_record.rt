// A body by value, from its record. From avian's dynamics/rigid_body/mod.rs.
ghost use Rattle.std.specs.Prelude.{◌≡◌, ◌<◌, length};
ghost use Rattle.rules.specs.Limits.{bodies};
ghost use Rattle.layout.specs.Body.{bodies_length, body_size};
ghost use Rattle.collider.specs.Recorded.{body_at};
ghost use Rattle.collider.specs.Views.{recorded_body, plain_body_if};

use crate::coefficient::Coefficient;
use layout::body::{
    BODY_ANGULAR_VELOCITY, BODY_CENTER_OF_MASS, BODY_FRICTION, BODY_LINEAR_VELOCITY, BODY_MARGIN,
    BODY_POSITION, BODY_SIZE, BODY_SPECULATIVE_MAXIMUM, BODY_STATIC, BODY_SWEEP_RADIUS,
};
use math::pose::Pose;
use math::vec::Vec3;
use words::load::{FromRow, load, load_present};

#[derive(Clone, Copy, PartialEq, Debug)]
pub struct BodyRecord {
    // A static body.
    pub is_static: bool,
    pub pose: Pose,
    // In the body's space.
    pub center_of_mass: Vec3,
    pub linear_velocity: Vec3,
    pub angular_velocity: Vec3,
    pub friction: Option<Coefficient>,
    pub margin: Option<f32>,
    pub speculative_maximum: Option<f32>,
    pub sweep_radius: f32,
}

// The record at a place, whose presence mark is set.
impl FromRow for BodyRecord {
    ghost size = { body_size };

    ghost at = { recorded_body };

    #[tactic(auto, unfolding(crate::specs::Views::recorded_body))]
    fn from_row(row: &[u32], from: usize) -> BodyRecord {
        BodyRecord {
            is_static: load(row, from + BODY_STATIC),
            pose: load(row, from + BODY_POSITION),
            center_of_mass: load(row, from + BODY_CENTER_OF_MASS),
            linear_velocity: load(row, from + BODY_LINEAR_VELOCITY),
            angular_velocity: load(row, from + BODY_ANGULAR_VELOCITY),
            friction: load(row, from + BODY_FRICTION),
            margin: load(row, from + BODY_MARGIN),
            speculative_maximum: load(row, from + BODY_SPECULATIVE_MAXIMUM),
            sweep_radius: load(row, from + BODY_SWEEP_RADIUS),
        }
    }
}

// Body n, which may be absent.
#[tactic(auto, using(crate::specs::LoadedLaws::body_present))]
pub fn load_body(words: &[u32], n: u32) -> Option<BodyRecord>
    requires { (n < bodies) × (length words.now ≡ bodies_length) }
    ensures { plain_body_if result ≡ body_at words.now n }
{
    load_present(words, n as usize * BODY_SIZE)
}
