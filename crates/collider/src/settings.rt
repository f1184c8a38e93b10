// The settings of a step.
ghost use Rattle.std.specs.Prelude.{◌≡◌, length};
ghost use Rattle.layout.specs.Settings.{settings_length};
ghost use Rattle.collider.specs.Recorded.{settings_of};
ghost use Rattle.collider.specs.Views.{plain_settings};

use crate::coefficient::Coefficient;
use layout::settings::{
    SETTINGS_CONTACT_TOLERANCE, SETTINGS_FRICTION, SETTINGS_LENGTH_UNIT, SETTINGS_MATCH_CONTACTS,
    SETTINGS_MATCHING, SETTINGS_RECYCLE_COSINE, SETTINGS_RECYCLE_DISTANCE, SETTINGS_RESTITUTION,
    SETTINGS_STEP_TIME,
};
use words::load::load;

#[derive(Clone, Copy, PartialEq, Debug)]
pub struct Settings {
    pub step_time: f32,
    pub length_unit: f32,
    pub contact_tolerance: f32,
    pub recycle_distance: f32,
    // The squared cosine of half the recycle angle.
    pub recycle_cosine: f32,
    pub match_contacts: bool,
    pub default_friction: Coefficient,
    pub default_restitution: Coefficient,
    // The matching setting: by place, else by number.
    pub by_place: bool,
}

// Not named, matching is by place. No `FromRow`: the row is this one record, and no other place of a row is one.
#[tactic(auto, using(crate::specs::LoadedLaws::settings_loaded))]
pub fn load_settings(words: &[u32]) -> Settings
    requires { length words.now ≡ settings_length }
    ensures { plain_settings result ≡ settings_of words.now }
{
    Settings {
        step_time: load(words, SETTINGS_STEP_TIME),
        length_unit: load(words, SETTINGS_LENGTH_UNIT),
        contact_tolerance: load(words, SETTINGS_CONTACT_TOLERANCE),
        recycle_distance: load(words, SETTINGS_RECYCLE_DISTANCE),
        recycle_cosine: load(words, SETTINGS_RECYCLE_COSINE),
        match_contacts: load(words, SETTINGS_MATCH_CONTACTS),
        default_friction: load(words, SETTINGS_FRICTION),
        default_restitution: load(words, SETTINGS_RESTITUTION),
        by_place: load::<Option<bool>>(words, SETTINGS_MATCHING).unwrap_or(true),
    }
}
