// The poses that recycling compares with. From avian's contact_types/mod.rs.
ghost use Rattle.layout.specs.Contact.{cache_size};
ghost use Rattle.contact_types.specs.Cached.{recorded_cache};

use layout::contact::{
    CACHE_RELATIVE_ROTATION, CACHE_RELATIVE_TRANSLATION, CACHE_ROTATION1, CACHE_ROTATION2,
};
use math::quat::Quat;
use math::vec::Vec3;
use words::load::{FromRow, load};

#[derive(Clone, Copy, PartialEq, Debug)]
pub struct ContactRecyclingCache {
    pub rotation1: Quat,
    pub rotation2: Quat,
    pub relative_translation: Vec3,
    pub relative_rotation: Quat,
}

// The record at a place, whose presence mark is set.
impl FromRow for ContactRecyclingCache {
    ghost size = { cache_size };

    ghost at = { recorded_cache };

    fn from_row(row: &[u32], from: usize) -> ContactRecyclingCache {
        ContactRecyclingCache {
            rotation1: load(row, from + CACHE_ROTATION1),
            rotation2: load(row, from + CACHE_ROTATION2),
            relative_translation: load(row, from + CACHE_RELATIVE_TRANSLATION),
            relative_rotation: load(row, from + CACHE_RELATIVE_ROTATION),
        }
    }
}
