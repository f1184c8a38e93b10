// A body's position and rotation, by value: `Position` and `Rotation` of transform.rs.
#![tactic(auto, unfolding(crate::specs::Pose::relative))]

ghost use Rattle.std.specs.Prelude.{◌≡◌};
ghost use Rattle.math.specs.Pose.{relative};

use crate::quat::Quat;
use crate::vec::Vec3;

#[derive(Clone, Copy, PartialEq, Debug)]
pub struct Pose {
    pub position: Vec3,
    pub rotation: Quat,
}

impl Pose {
    pub const IDENTITY: Self = Pose {
        position: Vec3::ZERO,
        rotation: Quat::IDENTITY,
    };

    // The other pose in this one's space.
    pub fn relative(self, other: Pose) -> Pose
        ensures { result ≡ relative self other }
    {
        let back = self.rotation.inverse();
        Pose {
            position: back.mul_vec3(other.position - self.position),
            rotation: back.mul_quat(other.rotation),
        }
    }
}
