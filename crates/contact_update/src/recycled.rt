// A recycled pair: its penetrations follow the bodies, and nothing else of its manifolds changes. Rule 5.
ghost use Rattle.std.specs.Prelude.{◌≡◌, [], ◌∷◌, map, ◌+◌, ◌≤◌, length};
ghost use Rattle.rows.specs.Rows.{put};
ghost use Rattle.rules.specs.Recycling.{recycled_manifold};
ghost use Rattle.collider.specs.Views.{plain_side};
ghost use Rattle.manifold_records.specs.Counts.{Counted};
ghost use Rattle.manifold_records.specs.Recorded.{point_at, points_at, manifolds_at};
ghost use Rattle.layout.specs.Contact.{contact_manifolds, contact_size, contact_speculative_distance, pair_static1};
ghost use Rattle.layout.specs.Manifold.{points_size};
ghost use Rattle.layout.specs.Point.{point_size};
ghost use Rattle.rules.specs.Limits.{stored_points};
ghost use Rattle.contact_records.specs.StateViews.{cached_of};
ghost use Rattle.words.specs.Words.{mark_word};
ghost use Rattle.contact_parameters.specs.Motions.{penetration_after};
ghost use Rattle.contact_update.specs.After.{points_put, manifolds_put};
ghost use Rattle.contact_update.specs.Updates.{point_after, manifold_after};

use collider::side::Side;
use contact_parameters::recycling::{Motion, motion_of};
use contact_types::contact_manifold::ContactRecyclingCache;
use layout::contact::{
    CONTACT_FIRST_MANIFOLD, CONTACT_MANIFOLDS, CONTACT_SIZE, CONTACT_SPECULATIVE_DISTANCE,
    PAIR_STATIC1,
};
use layout::manifold::{MANIFOLD_NORMAL, MANIFOLD_POINTS, MANIFOLD_SIZE};
use layout::point::{POINT_ANCHOR2, POINT_BASE_PENETRATION, POINT_PENETRATION, POINT_SIZE};
use math::vec::Vec3;
use words::load::load;
use words::row::{mark_word, store_words};
use words::store::store;

// What the penetration of the point at a place becomes: the anchors stay, and the separation follows the bodies.
#[tactic(auto, unfolding(manifold_records::specs::Recorded::point_at, contact_parameters::specs::Motions::penetration_after))]
fn penetration_at(words: &[u32], at: usize, normal: Vec3, motion: Motion) -> f32
    requires { at + point_size ≤ length words.now }
    ensures { result ≡ penetration_after motion normal (point_at words.now at) }
{
    let r1 = motion.turn1.mul_vec3(load::<Vec3>(words, at));
    let r2 = motion
        .turn2
        .mul_vec3(load::<Vec3>(words, at + POINT_ANCHOR2));
    let delta = motion.between + (r2 - r1);
    load::<f32>(words, at + POINT_BASE_PENETRATION) - delta.dot(normal)
}

// The penetrations of n points, which stand from a place on. Each is read where it stands: what was written stands before it.
#[tactic(auto, using(crate::specs::PointLaws::points_turn), unfolding(crate::specs::After::points_put))]
fn recycle_points(words: &mut [u32], at: usize, n: usize, normal: Vec3, motion: Motion)
    requires { (n ≤ stored_points) × (at + points_size ≤ length words.old) }
    ensures { words.new ≡ points_put (map (point_after motion normal) (points_at words.old at n)) at words.old }
{
    for k in 0..n {
        let penetration = penetration_at(words, at + k * POINT_SIZE, normal, motion);
        store(words, at + k * POINT_SIZE + POINT_PENETRATION, penetration);
    }
}

// Each manifold is read where it stands, too.
fn recycle_manifolds(words: &mut [u32; CONTACT_SIZE], motion: Motion)
    requires { Counted words.old contact_manifolds }
    ensures { words.new ≡ manifolds_put (map (manifold_after motion) (manifolds_at words.old contact_manifolds)) (contact_manifolds + 1) words.old }
{
    let n = load::<usize>(words, CONTACT_MANIFOLDS);
    for k in 0..n {
        let at = CONTACT_FIRST_MANIFOLD + k * MANIFOLD_SIZE;
        let count = load::<usize>(words, at);
        let normal = load::<Vec3>(words, at + MANIFOLD_NORMAL);
        recycle_points(words, at + MANIFOLD_POINTS, count, normal, motion);
    }
}

// And the static marks, and the speculative distance.
#[tactic(auto, using(crate::specs::ManifoldTurnLaws::recycled_stored))]
fn recycle_own(words: &mut [u32; CONTACT_SIZE], a: Side, b: Side, cache: ContactRecyclingCache)
    requires { Counted words.old contact_manifolds }
    ensures { words.new ≡ put (put (manifolds_put (map (recycled_manifold (plain_side a) (plain_side b) (cached_of cache)) (manifolds_at words.old contact_manifolds)) (contact_manifolds + 1) words.old) pair_static1 (mark_word a.is_static ∷ mark_word b.is_static ∷ [])) contact_speculative_distance (0 ∷ []) }
{
    let motion = motion_of(a, b, cache);
    recycle_manifolds(words, motion);
    let marks = [mark_word(a.is_static), mark_word(b.is_static)];
    store_words(words, PAIR_STATIC1, &marks);
    store(words, CONTACT_SPECULATIVE_DISTANCE, 0);
}

pub fn recycle_words(words: &mut [u32], a: Side, b: Side, cache: ContactRecyclingCache)
    requires { (length words.old ≡ contact_size) × Counted words.old contact_manifolds }
    ensures { words.new ≡ put (put (manifolds_put (map (recycled_manifold (plain_side a) (plain_side b) (cached_of cache)) (manifolds_at words.old contact_manifolds)) (contact_manifolds + 1) words.old) pair_static1 (mark_word a.is_static ∷ mark_word b.is_static ∷ [])) contact_speculative_distance (0 ∷ []) }
{
    let Some(own) = words.as_mut_array::<CONTACT_SIZE>() else {
        unreachable!()
    };
    recycle_own(own, a, b, cache);
}
