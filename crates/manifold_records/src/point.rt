// A contact point: 18 words.
ghost use Rattle.std.specs.Prelude.{◌≡◌, map, ◌+◌, ◌≤◌, length, take};
ghost use Rattle.rows.specs.Rows.{put, each};
ghost use Rattle.layout.specs.Manifold.{points_size};
ghost use Rattle.layout.specs.Point.{point_size};
ghost use Rattle.rules.specs.Limits.{stored_points};
ghost use Rattle.contact_types.specs.Views.{point_of};
ghost use Rattle.manifold_records.specs.Written.{point_words};

use contact_types::contact_point::ContactPoint;
use layout::limits::STORED_POINTS;
use layout::point::POINT_SIZE;
use math::bits::bits_of;
use words::row::store_words;

// The words, as a value. One array, and so one store and one law: stored part by part, the row after each part would have to be put together.
#[tactic(auto, unfolding(crate::specs::Written::point_words))]
fn point_words(p: ContactPoint) -> [u32; POINT_SIZE]
    ensures { result ≡ point_words (point_of p) }
{
    let a = p.anchor1;
    let b = p.anchor2;
    let c = p.point;
    let t = p.warm_start_tangent_impulse;
    let f1 = p.feature_id1;
    let f2 = p.feature_id2;
    [
        bits_of(a.x),
        bits_of(a.y),
        bits_of(a.z),
        bits_of(b.x),
        bits_of(b.y),
        bits_of(b.z),
        bits_of(c.x),
        bits_of(c.y),
        bits_of(c.z),
        bits_of(p.penetration),
        bits_of(p.base_penetration),
        bits_of(p.normal_impulse),
        bits_of(p.normal_speed),
        bits_of(p.warm_start_normal_impulse),
        bits_of(t.x),
        bits_of(t.y),
        f1.0,
        f2.0,
    ]
}

pub fn store_point(g: &mut [u32], at: usize, p: ContactPoint)
    requires { at + point_size ≤ length g.old }
    ensures { g.new ≡ put g.old at (point_words (point_of p)) }
{
    let w = point_words(p);
    store_words(g, at, &w);
}

// The first n of four points, one after another. By value: over a slice it was slower, since the array lent is cleared for every manifold, also where none is made.
pub fn store_listed(g: &mut [u32], at: usize, points: [ContactPoint; STORED_POINTS], n: usize)
    requires { (n ≤ stored_points) × (at + points_size ≤ length g.old) }
    ensures { g.new ≡ put g.old at (each point_words (map point_of (take n points))) }
{
    for k in 0..n {
        let p = points[k];
        store_point(g, at + k * POINT_SIZE, p);
    }
}
