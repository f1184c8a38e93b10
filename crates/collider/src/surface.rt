// Rule 7 of one pair's update: friction, restitution and margin of a side, and how two coefficients combine.
ghost use Rattle.std.specs.Prelude.{◌≡◌, cond, ltb};
ghost use Rattle.rules.specs.Surface.{ruled, combine, friction_of, restitution_of, margin_of};
ghost use Rattle.collider.specs.Views.{plain_coefficient, plain_settings, plain_collider, plain_side};

use crate::coefficient::Coefficient;
use crate::collider_record::ColliderRecord;
use crate::settings::Settings;
use crate::side::Side;
use math::choose::{maximum, minimum};
use math::constants::HALF;
use math::root::root;

// The collider's, else the body's, else the default.
#[tactic(auto, using(crate::proofs::GivenLaws::seen_first), unfolding(rules::specs::Surface::friction_of))]
pub fn friction_of(s: Settings, c: ColliderRecord, a: Side) -> Coefficient
    ensures { plain_coefficient result ≡ friction_of (plain_settings s) (plain_collider c) (plain_side a) }
{
    c.friction.or(a.friction).unwrap_or(s.default_friction)
}

// The collider's, else the default: never the body's.
#[tactic(auto, using(crate::proofs::GivenLaws::seen_or_else), unfolding(rules::specs::Surface::restitution_of))]
pub fn restitution_of(s: Settings, c: ColliderRecord) -> Coefficient
    ensures { plain_coefficient result ≡ restitution_of (plain_settings s) (plain_collider c) }
{
    c.restitution.unwrap_or(s.default_restitution)
}

// The collider's, else the body's, else 0.
#[tactic(auto, unfolding(rules::specs::Surface::margin_of))]
pub fn margin_of(c: ColliderRecord, a: Side) -> f32
    ensures { result ≡ margin_of (plain_collider c) (plain_side a) }
{
    c.margin.or(a.margin).unwrap_or(0.0)
}

// 1 (a + b) × 0.5, 2 root of a × b, 3 minimum, 4 product, 5 maximum.
#[tactic(auto, unfolding(rules::specs::Surface::ruled))]
fn ruled(rule: u32, a: f32, b: f32) -> f32
    ensures { result ≡ ruled rule a b }
{
    match rule {
        1 => (a + b) * HALF,
        2 => root(a * b),
        3 => minimum(a, b),
        4 => a * b,
        _ => maximum(a, b),
    }
}

#[tactic(auto, using(crate::proofs::GivenLaws::larger))]
fn larger_rule(a: u32, b: u32) -> u32
    ensures { result ≡ cond (ltb a b) b a }
{
    a.max(b)
}

// By the larger rule number.
#[tactic(auto, unfolding(rules::specs::Surface::combine))]
pub fn combine(a: Coefficient, b: Coefficient) -> f32
    ensures { result ≡ combine (plain_coefficient a) (plain_coefficient b) }
{
    ruled(larger_rule(a.rule, b.rule), a.value, b.value)
}
