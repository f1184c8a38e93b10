// Vectors of 32-bit floats, by value, with glam's names for what is done to them.
#![tactic(auto, unfolding(crate::specs::Vec::negated, crate::specs::Vec::dot, crate::specs::Vec::cross, crate::specs::Vec::squared_length, crate::specs::Vec::squared_distance, crate::specs::Vec::length3, crate::specs::Vec::clamp_length, crate::specs::Vec::reject))]

ghost use Rattle.std.specs.Prelude.{◌≡◌};
ghost use Rattle.math.specs.Vec.{vec3, ◌+v◌, ◌-v◌, ◌*v◌, negated, dot, cross, squared_length, squared_distance, length3, clamp_length, reject};

use crate::root::root;
use std::ops::{Add, Mul, Neg, Sub};

#[derive(Clone, Copy, PartialEq, Debug, Default)]
pub struct Vec2 {
    pub x: f32,
    pub y: f32,
}

#[derive(Clone, Copy, PartialEq, Debug, Default)]
pub struct Vec3 {
    pub x: f32,
    pub y: f32,
    pub z: f32,
}

impl Vec2 {
    pub const ZERO: Self = Vec2 { x: 0.0, y: 0.0 };
}

impl Vec3 {
    pub const ZERO: Self = Vec3 {
        x: 0.0,
        y: 0.0,
        z: 0.0,
    };

    pub fn new(x: f32, y: f32, z: f32) -> Vec3
        ensures { result ≡ vec3 x y z }
    {
        Vec3 { x, y, z }
    }

    pub fn dot(self, b: Vec3) -> f32
        ensures { result ≡ dot self b }
    {
        self.x * b.x + self.y * b.y + self.z * b.z
    }

    pub fn cross(self, b: Vec3) -> Vec3
        ensures { result ≡ cross self b }
    {
        Vec3 {
            x: self.y * b.z - b.y * self.z,
            y: self.z * b.x - b.z * self.x,
            z: self.x * b.y - b.x * self.y,
        }
    }

    pub fn length_squared(self) -> f32
        ensures { result ≡ squared_length self }
    {
        self.dot(self)
    }

    pub fn distance_squared(self, b: Vec3) -> f32
        ensures { result ≡ squared_distance self b }
    {
        (self - b).length_squared()
    }

    pub fn length(self) -> f32
        ensures { result ≡ length3 self }
    {
        root(self.length_squared())
    }

    // The length is kept where it is at most max.
    pub fn clamp_length_max(self, max: f32) -> Vec3
        ensures { result ≡ clamp_length self max }
    {
        let squared = self.length_squared();
        if squared > max * max {
            let length = root(squared);
            Vec3 {
                x: max * (self.x / length),
                y: max * (self.y / length),
                z: max * (self.z / length),
            }
        } else {
            self
        }
    }

    // What is left of the vector without its part along the normal.
    pub fn reject_from_normalized(self, normal: Vec3) -> Vec3
        ensures { result ≡ reject self normal }
    {
        self - normal * self.dot(normal)
    }
}

impl Add for Vec3 {
    type Output = Vec3;

    ghost add_gives = { λ a b r. r ≡ a +v b };

    fn add(self, b: Vec3) -> Vec3 {
        Vec3 {
            x: self.x + b.x,
            y: self.y + b.y,
            z: self.z + b.z,
        }
    }
}

impl Sub for Vec3 {
    type Output = Vec3;

    ghost sub_gives = { λ a b r. r ≡ a -v b };

    fn sub(self, b: Vec3) -> Vec3 {
        Vec3 {
            x: self.x - b.x,
            y: self.y - b.y,
            z: self.z - b.z,
        }
    }
}

impl Mul<f32> for Vec3 {
    type Output = Vec3;

    ghost mul_gives = { λ a k r. r ≡ a *v k };

    fn mul(self, k: f32) -> Vec3 {
        Vec3 {
            x: self.x * k,
            y: self.y * k,
            z: self.z * k,
        }
    }
}

impl Neg for Vec3 {
    type Output = Vec3;

    ghost neg_gives = { λ a r. r ≡ negated a };

    fn neg(self) -> Vec3 {
        Vec3 {
            x: -self.x,
            y: -self.y,
            z: -self.z,
        }
    }
}
