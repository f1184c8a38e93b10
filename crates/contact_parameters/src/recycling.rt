// Whether a pair's contacts are recycled, and how: rules 4 and 5. The recycle block of avian's `update_contacts`.
// The two sides are two arguments and no `OverlappingPair`: no collider is looked at.
ghost use Rattle.std.specs.Prelude.{◌≡◌, cond, None};
ghost use Rattle.rules.specs.Recycling.{scaled_tolerance, scaled_recycle, tolerance_for, radius, least_squared_dot, squared_motion, arc, recycles};
ghost use Rattle.contact_parameters.specs.Motions.{motion_of};
ghost use Rattle.collider.specs.Views.{plain_settings, plain_side};
ghost use Rattle.contact_records.specs.StateViews.{cached_of, cache_of};

use collider::settings::Settings;
use collider::side::Side;
use contact_types::contact_manifold::ContactRecyclingCache;
use math::choose::{maximum, minimum};
use math::mat::Mat3;
use math::root::root;
use math::vec::Vec3;

#[tactic(auto, unfolding(rules::specs::Recycling::scaled_tolerance))]
pub fn scaled_tolerance(settings: Settings) -> f32
    ensures { result ≡ scaled_tolerance (plain_settings settings) }
{
    settings.length_unit * settings.contact_tolerance
}

#[tactic(auto, unfolding(rules::specs::Recycling::scaled_recycle))]
pub fn scaled_recycle(settings: Settings) -> f32
    ensures { result ≡ scaled_recycle (plain_settings settings) }
{
    settings.length_unit * settings.recycle_distance
}

// A pair that does not touch is held to the contact tolerance too.
#[tactic(auto, unfolding(rules::specs::Recycling::tolerance_for))]
fn tolerance_for(settings: Settings, touching: bool) -> f32
    ensures { result ≡ tolerance_for (plain_settings settings) touching }
{
    if touching {
        return scaled_recycle(settings);
    }
    minimum(scaled_recycle(settings), scaled_tolerance(settings))
}

// A static body sweeps nothing.
#[tactic(auto, unfolding(rules::specs::Recycling::radius))]
fn sweep(a: Side) -> f32
    ensures { result ≡ radius (plain_side a) }
{
    if a.is_static { 0.0 } else { a.sweep_radius }
}

#[tactic(auto, unfolding(rules::specs::Recycling::least_squared_dot))]
fn least_squared_dot(a: Side, b: Side, cache: ContactRecyclingCache) -> f32
    ensures { result ≡ least_squared_dot (plain_side a) (plain_side b) (cached_of cache) }
{
    let angle1 = a.pose.rotation.dot(cache.rotation1);
    let angle2 = b.pose.rotation.dot(cache.rotation2);
    minimum(angle1 * angle1, angle2 * angle2)
}

#[tactic(auto, unfolding(rules::specs::Recycling::squared_motion))]
fn squared_motion(a: Side, b: Side, cache: ContactRecyclingCache) -> f32
    ensures { result ≡ squared_motion (plain_side a) (plain_side b) (cached_of cache) }
{
    let relative = a.pose.relative(b.pose);
    relative
        .position
        .distance_squared(cache.relative_translation)
}

#[tactic(auto, unfolding(rules::specs::Recycling::arc))]
fn arc_length(a: Side, b: Side, cache: ContactRecyclingCache) -> f32
    ensures { result ≡ arc (plain_side a) (plain_side b) (cached_of cache) }
{
    let relative = a.pose.relative(b.pose);
    let delta = cache
        .relative_rotation
        .inverse()
        .mul_quat(relative.rotation);
    delta.chord_length() * maximum(sweep(a), sweep(b))
}
// The recycle block: each test that holds abandons recycling and leaves the loop by its label. A NaN abandons nothing.
fn recycles(
    settings: Settings,
    touching: bool,
    a: Side,
    b: Side,
    cache: Option<ContactRecyclingCache>,
) -> bool
    ensures { result ≡ recycles (plain_settings settings) touching (plain_side a) (plain_side b) (cache_of cache) }
{
    'recycle: loop {
        if scaled_recycle(settings) <= 0.0 {
            break 'recycle false;
        }
        let Some(cached) = cache else {
            break 'recycle false;
        };
        if least_squared_dot(a, b, cached) <= settings.recycle_cosine {
            break 'recycle false;
        }
        let tolerance = tolerance_for(settings, touching);
        let squared = squared_motion(a, b, cached);
        if squared >= tolerance * tolerance {
            break 'recycle false;
        }
        if arc_length(a, b, cached) >= tolerance - root(squared) {
            break 'recycle false;
        }
        break 'recycle true;
    }
}

// The cache, where the pair's contacts are recycled.
pub fn recycle(
    settings: Settings,
    touching: bool,
    a: Side,
    b: Side,
    cache: Option<ContactRecyclingCache>,
) -> Option<ContactRecyclingCache>
    ensures { result ≡ cond (recycles (plain_settings settings) touching (plain_side a) (plain_side b) (cache_of cache)) cache None }
{
    if recycles(settings, touching, a, b, cache) {
        cache
    } else {
        None
    }
}

// How far the two bodies have turned and moved since the cache was made: once for a pair.
#[derive(Clone, Copy)]
pub struct Motion {
    pub turn1: Mat3,
    pub turn2: Mat3,
    // Between the centres of mass.
    pub between: Vec3,
}

#[tactic(auto, unfolding(crate::specs::Motions::motion_of))]
pub fn motion_of(a: Side, b: Side, cache: ContactRecyclingCache) -> Motion
    ensures { result ≡ motion_of (plain_side a) (plain_side b) (cached_of cache) }
{
    let delta1 = a.pose.rotation.mul_quat(cache.rotation1.inverse());
    let delta2 = b.pose.rotation.mul_quat(cache.rotation2.inverse());
    let centres = b.world_com - a.world_com;
    let positions = b.pose.position - a.pose.position;
    Motion {
        turn1: Mat3::from_quat(delta1),
        turn2: Mat3::from_quat(delta2),
        between: centres + positions,
    }
}
