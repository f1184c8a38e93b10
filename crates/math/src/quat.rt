// Quaternions of 32-bit floats, by value: `Rotation` of transform.rs, `QuatExt` of math/mod.rs, and glam's `Quat`.
#![tactic(auto, unfolding(crate::specs::Quat::axis, crate::specs::Quat::dot4, crate::specs::Quat::times, crate::specs::Quat::inverse, crate::specs::Quat::rotate, crate::specs::Quat::chord_length))]

ghost use Rattle.std.specs.Prelude.{◌≡◌};
ghost use Rattle.math.specs.Quat.{axis, dot4, times, inverse, rotate, chord_length};

use crate::vec::Vec3;

#[derive(Clone, Copy, PartialEq, Debug)]
pub struct Quat {
    pub x: f32,
    pub y: f32,
    pub z: f32,
    pub w: f32,
}

impl Quat {
    pub const IDENTITY: Self = Quat {
        x: 0.0,
        y: 0.0,
        z: 0.0,
        w: 1.0,
    };

    // The vector part.
    pub fn xyz(self) -> Vec3
        ensures { result ≡ axis self }
    {
        Vec3 {
            x: self.x,
            y: self.y,
            z: self.z,
        }
    }

    pub fn dot(self, b: Quat) -> f32
        ensures { result ≡ dot4 self b }
    {
        self.x * b.x + self.y * b.y + self.z * b.z + self.w * b.w
    }

    // The Hamilton product.
    pub fn mul_quat(self, b: Quat) -> Quat
        ensures { result ≡ times self b }
    {
        Quat {
            x: self.w * b.x + self.x * b.w + self.y * b.z - self.z * b.y,
            y: self.w * b.y - self.x * b.z + self.y * b.w + self.z * b.x,
            z: self.w * b.z + self.x * b.y - self.y * b.x + self.z * b.w,
            w: self.w * b.w - self.x * b.x - self.y * b.y - self.z * b.z,
        }
    }

    // The inverse of a rotation, its conjugate.
    pub fn inverse(self) -> Quat
        ensures { result ≡ inverse self }
    {
        Quat {
            x: -self.x,
            y: -self.y,
            z: -self.z,
            w: self.w,
        }
    }

    // v rotated.
    pub fn mul_vec3(self, v: Vec3) -> Vec3
        ensures { result ≡ rotate self v }
    {
        let b = self.xyz();
        let along = v * (self.w * self.w - b.dot(b));
        let toward = b * (2.0 * v.dot(b));
        let around = b.cross(v) * (2.0 * self.w);
        along + toward + around
    }

    // The straight-line distance between the ends of the rotation's arc on the unit sphere.
    pub fn chord_length(self) -> f32
        ensures { result ≡ chord_length self }
    {
        2.0 * self.xyz().length()
    }
}
