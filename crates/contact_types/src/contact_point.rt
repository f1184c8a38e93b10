// A point of a contact manifold, by value. From avian's contact_types/mod.rs.
#![tactic(auto, unfolding(crate::specs::Points::new_point, crate::specs::Points::with_features))]

ghost use Rattle.std.specs.Prelude.{◌≡◌};
ghost use Rattle.layout.specs.Point.{point_size};
ghost use Rattle.contact_types.specs.Points.{recorded_point, new_point, with_features};

use crate::feature_id::PackedFeatureId;
use layout::point::{
    POINT_ANCHOR2, POINT_BASE_PENETRATION, POINT_FEATURE2, POINT_FEATURES, POINT_NORMAL_IMPULSE,
    POINT_NORMAL_SPEED, POINT_PENETRATION, POINT_POSITION, POINT_WARM_START_NORMAL_IMPULSE,
    POINT_WARM_START_TANGENT_IMPULSE, POINT_WARM_START_TANGENT_IMPULSE_Y,
};
use math::vec::{Vec2, Vec3};
use words::load::{FromRow, load};

#[derive(Clone, Copy, PartialEq, Debug)]
pub struct ContactPoint {
    // Relative to the bodies' centres of mass, in world space.
    pub anchor1: Vec3,
    pub anchor2: Vec3,
    // In world space.
    pub point: Vec3,
    pub penetration: f32,
    // The penetration of the last full update: recycling starts from it.
    pub base_penetration: f32,
    pub normal_impulse: f32,
    pub normal_speed: f32,
    pub warm_start_normal_impulse: f32,
    pub warm_start_tangent_impulse: Vec2,
    pub feature_id1: PackedFeatureId,
    pub feature_id2: PackedFeatureId,
}

impl FromRow for ContactPoint {
    ghost size = { point_size };

    ghost at = { recorded_point };

    #[tactic(auto, unfolding(crate::specs::Points::recorded_point))]
    fn from_row(row: &[u32], from: usize) -> ContactPoint {
        ContactPoint {
            anchor1: load(row, from),
            anchor2: load(row, from + POINT_ANCHOR2),
            point: load(row, from + POINT_POSITION),
            penetration: load(row, from + POINT_PENETRATION),
            base_penetration: load(row, from + POINT_BASE_PENETRATION),
            normal_impulse: load(row, from + POINT_NORMAL_IMPULSE),
            normal_speed: load(row, from + POINT_NORMAL_SPEED),
            warm_start_normal_impulse: load(row, from + POINT_WARM_START_NORMAL_IMPULSE),
            warm_start_tangent_impulse: Vec2 {
                x: load(row, from + POINT_WARM_START_TANGENT_IMPULSE),
                y: load(row, from + POINT_WARM_START_TANGENT_IMPULSE_Y),
            },
            feature_id1: load(row, from + POINT_FEATURES),
            feature_id2: load(row, from + POINT_FEATURE2),
        }
    }
}

impl ContactPoint {
    pub fn new(anchor1: Vec3, anchor2: Vec3, world_point: Vec3, penetration: f32) -> ContactPoint
        ensures { result ≡ new_point anchor1 anchor2 world_point penetration }
    {
        ContactPoint {
            anchor1,
            anchor2,
            point: world_point,
            penetration,
            base_penetration: penetration,
            normal_impulse: 0.0,
            normal_speed: 0.0,
            warm_start_normal_impulse: 0.0,
            warm_start_tangent_impulse: Vec2::ZERO,
            feature_id1: PackedFeatureId::UNKNOWN,
            feature_id2: PackedFeatureId::UNKNOWN,
        }
    }

    pub fn with_feature_ids(mut self, id1: PackedFeatureId, id2: PackedFeatureId) -> ContactPoint
        ensures { result ≡ with_features self id1 id2 }
    {
        self.feature_id1 = id1;
        self.feature_id2 = id2;
        self
    }
}
