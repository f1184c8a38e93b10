// Which points of a manifold of more than four stay: `prune_points` of avian's contact_types/mod.rs.
#![tactic(auto, unfolding(rules::specs::Pruning::projected, rules::specs::Pruning::weight))]

ghost use Rattle.std.specs.Prelude.{◌≡◌, ◌∷◌, ◌++◌, ◌≤◌, ◌<◌, Bool, ℕ, Float, length};
ghost use Rattle.math.specs.Constants.{lowest};
ghost use Rattle.math.specs.Vec.{dot, ◌-v◌};
ghost use Rattle.math.specs.declared.vec.Vec3.{Vec3};
ghost use Rattle.rules.specs.Numbers.{greater, leader};
ghost use Rattle.rules.specs.Pruning.{projected, weight, point1, point2, listed, kept};
ghost use Rattle.rules.specs.Limits.{proposed_points};
ghost use Rattle.contact_types.specs.Pruned.{prune_point_of, projected_of, point_by, projected_by, AllProjected, Computes, weighed, passed, kept_struct, SidesFound};

use layout::limits::PROPOSED_POINTS;
use math::choose::maximum;
use math::constants::{LOWEST, TINY};
use math::vec::Vec3;

// What pruning looks at in a point.
#[derive(Clone, Copy, PartialEq, Debug, Default)]
pub struct PrunePoint {
    pub anchor1: Vec3,
    pub penetration: f32,
}

// Anchor 1 without its part along the normal, and the squared penetration, at least 1e-6.
#[derive(Clone, Copy, PartialEq, Debug, Default)]
pub struct Projected {
    pub point: Vec3,
    pub depth: f32,
}

// The best value so far, and the number of the point that has it, if one has.
#[derive(Clone, Copy, PartialEq, Debug)]
pub struct Lead {
    pub value: f32,
    pub index: Option<u32>,
}

// Points 3 and 4, where there are any.
#[derive(Clone, Copy, PartialEq, Eq, Debug)]
pub struct Sides {
    pub below: Option<u32>,
    pub above: Option<u32>,
}

// The numbers of the points that stay: the first `count` of the four. The others are 0.
// With a count: the promise says what the unused numbers are too, which a list of a varying length would not, and the C interface hands on these five words.
#[derive(Clone, Copy, PartialEq, Eq, Debug, Default)]
pub struct KeptPoints {
    pub count: u32,
    pub first: u32,
    pub second: u32,
    pub third: u32,
    pub fourth: u32,
}

fn project(p: PrunePoint, normal: Vec3) -> Projected
    ensures { projected_of result ≡ projected normal (prune_point_of p) }
{
    Projected {
        point: p.anchor1.reject_from_normalized(normal),
        depth: maximum(p.penetration * p.penetration, TINY),
    }
}

fn project_all(points: &[PrunePoint], normal: Vec3) -> [Projected; PROPOSED_POINTS]
    requires { length points.now ≤ proposed_points }
    ensures { AllProjected normal points.now result (length points.now) }
{
    let mut ps = [Projected::default(); PROPOSED_POINTS];
    for (k, p) in points.iter().enumerate() {
        ps[k] = project(*p, normal);
    }
    ps
}

fn weight(squared: f32, p: Projected) -> f32
    ensures { result ≡ weight squared (projected_of p) }
{
    maximum(squared, TINY) * p.depth
}

impl Lead {
    // Point k leads from here where it wins.
    fn passed(self, wins: bool, value: f32, k: u32) -> Lead
        ensures { result ≡ passed self wins value k }
    {
        if wins {
            Lead {
                value,
                index: Some(k),
            }
        } else {
            self
        }
    }
}

// The point of the greatest weight by a squared distance, of those that take part.
fn heaviest<S: Fn(Vec3) -> f32, A: Fn(u32) -> bool>(
    ps: &[Projected],
    squared: S,
    among: A,
) -> Option<u32>
    requires { S.IsAlwaysCallable squared × A.IsAlwaysCallable among × (length ps.now ≤ proposed_points) }
    ensures { (s : Vec3 → Float) (a : ℕ → Bool) → Computes (S.post squared) s → Computes (A.post among) a → result ≡ (leader greater (weighed s (projected_by ps.now)) a lowest (length ps.now)).who }
{
    let mut lead = Lead {
        value: LOWEST,
        index: None,
    };
    for (k, p) in ps.iter().enumerate() {
        let value = weight(squared(p.point), *p);
        lead = lead.passed(among(k as u32) & (value > lead.value), value, k as u32);
    }
    lead.index
}

// The point of the greatest weight.
fn first_point(ps: &[Projected]) -> Option<u32>
    requires { length ps.now ≤ proposed_points }
    ensures { result ≡ point1 (length ps.now) (projected_by ps.now) }
{
    heaviest(ps, |point| point.length_squared(), |_| true)
}

// The point of the greatest weight by distance from the first.
fn second_point(ps: &[Projected], i: u32) -> Option<u32>
    requires { (length ps.now ≤ proposed_points) × (i < length ps.now) }
    ensures { result ≡ point2 (length ps.now) (projected_by ps.now) i }
{
    let from = ps[i as usize].point;
    heaviest(ps, |point| point.distance_squared(from), |k| k != i)
}

// The side of the line through points 1 and 2 on which a point lies, and how far.
fn side_value(perp: Vec3, from: Vec3, point: Vec3) -> f32
    ensures { result ≡ dot perp (point -v from) }
{
    perp.dot(point - from)
}

// The points furthest to either side of the line through the first two.
fn side_points(ps: &[Projected], i: u32, j: u32, normal: Vec3) -> Sides
    requires { (length ps.now ≤ proposed_points) × (i < length ps.now) × (j < length ps.now) }
    ensures { SidesFound normal (length ps.now) (projected_by ps.now) i j result }
{
    let from = ps[i as usize].point;
    let to = ps[j as usize].point;
    let perp = (to - from).cross(normal);
    let none = Lead {
        value: 0.0,
        index: None,
    };
    let mut below = none;
    let mut above = none;
    for (k, p) in ps.iter().enumerate() {
        let k = k as u32;
        let value = side_value(perp, from, p.point);
        let among = (k != i) & (k != j);
        below = below.passed(among & (value < below.value), value, k);
        above = above.passed(among & (value > above.value), value, k);
    }
    Sides {
        below: below.index,
        above: above.index,
    }
}

// In the order 1, 3, 2, 4, which forms a convex polygon.
fn gather(i: u32, below: Option<u32>, j: u32, above: Option<u32>) -> KeptPoints
    ensures { result ≡ kept_struct (i ∷ listed below ++ j ∷ listed above) }
{
    match (below, above) {
        (None, None) => KeptPoints {
            count: 2,
            first: i,
            second: j,
            third: 0,
            fourth: 0,
        },
        (None, Some(above)) => KeptPoints {
            count: 3,
            first: i,
            second: j,
            third: above,
            fourth: 0,
        },
        (Some(below), None) => KeptPoints {
            count: 3,
            first: i,
            second: below,
            third: j,
            fourth: 0,
        },
        (Some(below), Some(above)) => KeptPoints {
            count: 4,
            first: i,
            second: below,
            third: j,
            fourth: above,
        },
    }
}

// The points that stay, of two or more.
pub fn prune_points(points: &[PrunePoint], normal: Vec3) -> KeptPoints
    requires { (1 < length points.now) × (length points.now ≤ proposed_points) }
    ensures { result ≡ kept_struct (kept normal (length points.now) (point_by points.now)) }
{
    let all = project_all(points, normal);
    let ps = &all[..points.len()];
    let i = first_point(ps).unwrap();
    let j = second_point(ps, i).unwrap();
    let sides = side_points(ps, i, j, normal);
    gather(i, sides.below, j, sides.above)
}
