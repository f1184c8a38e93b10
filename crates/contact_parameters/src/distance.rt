// The distance at which a point still counts as a contact: rule 8. From avian's `update_contacts`.
ghost use Rattle.std.specs.Prelude.{◌≡◌};
ghost use Rattle.rules.specs.Surface.{clamped_velocity, swept_distance, effective_speculative_of};
ghost use Rattle.collider.specs.Views.{plain_settings, plain_side};

use crate::recycling::scaled_tolerance;
use collider::settings::Settings;
use collider::side::Side;
use math::choose::maximum;
use math::constants::LARGEST;
use math::vec::Vec3;

// A maximum that is f32's largest, infinite or NaN clamps nothing.
#[tactic(auto, unfolding(rules::specs::Surface::clamped_velocity))]
fn clamped_velocity(settings: Settings, a: Side, max: f32) -> Vec3
    ensures { result ≡ clamped_velocity (plain_settings settings) (plain_side a) max }
{
    if max < LARGEST {
        return a
            .linear_velocity
            .clamp_length_max(max * (1.0 / settings.step_time));
    }
    a.linear_velocity
}

// How far the bodies are expected to move toward each other in the step.
#[tactic(auto, unfolding(rules::specs::Surface::swept_distance))]
fn swept_distance(settings: Settings, a: Side, b: Side, max1: f32, max2: f32) -> f32
    ensures { result ≡ swept_distance (plain_settings settings) (plain_side a) (plain_side b) max1 max2 }
{
    let v1 = clamped_velocity(settings, a, max1);
    let v2 = clamped_velocity(settings, b, max2);
    (v2 - v1).length() * settings.step_time
}

// The swept distance counts where either body has a maximum other than 0.
#[tactic(auto, unfolding(rules::specs::Surface::effective_speculative_of))]
pub fn effective_speculative(settings: Settings, a: Side, b: Side, given: f32) -> f32
    ensures { result ≡ effective_speculative_of (plain_settings settings) (plain_side a) (plain_side b) given }
{
    let max1 = a.speculative_maximum.unwrap_or(0.0);
    let max2 = b.speculative_maximum.unwrap_or(0.0);
    let distance = if max1 != 0.0 || max2 != 0.0 {
        maximum(swept_distance(settings, a, b, max1, max2), given)
    } else {
        given
    };
    maximum(distance, scaled_tolerance(settings))
}
