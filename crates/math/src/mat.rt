// A matrix of three columns, of a rotation: glam's `Mat3`.
#![tactic(auto, unfolding(crate::specs::Mat::matrix))]

ghost use Rattle.std.specs.Prelude.{◌≡◌};
ghost use Rattle.math.specs.Mat.{matrix, ◌*m◌};

use crate::quat::Quat;
use crate::vec::Vec3;

#[derive(Clone, Copy, PartialEq, Debug)]
pub struct Mat3 {
    pub x_axis: Vec3,
    pub y_axis: Vec3,
    pub z_axis: Vec3,
}

impl Mat3 {
    pub fn from_quat(q: Quat) -> Mat3
        ensures { result ≡ matrix q }
    {
        let x2 = q.x + q.x;
        let y2 = q.y + q.y;
        let z2 = q.z + q.z;
        Mat3 {
            x_axis: Vec3 {
                x: 1.0 - (q.y * y2 + q.z * z2),
                y: q.x * y2 + q.w * z2,
                z: q.x * z2 - q.w * y2,
            },
            y_axis: Vec3 {
                x: q.x * y2 - q.w * z2,
                y: 1.0 - (q.x * x2 + q.z * z2),
                z: q.y * z2 + q.w * x2,
            },
            z_axis: Vec3 {
                x: q.x * z2 + q.w * y2,
                y: q.y * z2 - q.w * x2,
                z: 1.0 - (q.x * x2 + q.y * y2),
            },
        }
    }

    // The columns times v's parts, summed from the left.
    pub fn mul_vec3(self, v: Vec3) -> Vec3
        ensures { result ≡ self *m v }
    {
        self.x_axis * v.x + self.y_axis * v.y + self.z_axis * v.z
    }
}
