// A pair's new manifolds, from those proposed: points moved, filtered and pruned, empty manifolds left out. Rules 9 and 10.
ghost use Rattle.std.specs.Prelude.{◌≡◌, [], ◌∷◌, ◌++◌, map, ◌+◌, ◌≤◌, length};
ghost use Rattle.math.specs.Vec.{zero3};
ghost use Rattle.rules.specs.Filtering.{prune_point, without_empty};
ghost use Rattle.rules.specs.Update.{remaining};
ghost use Rattle.words.specs.Words.{word_at, float_word, vec3_words};
ghost use Rattle.collider.specs.Views.{plain_side};
ghost use Rattle.contact_parameters.specs.Views.{plain_surface};
ghost use Rattle.contact_types.specs.Pruned.{prune_point_of};
ghost use Rattle.contact_types.specs.Views.{point_of};
ghost use Rattle.layout.specs.Manifold.{all_manifolds_size, manifold_size, points_size};
ghost use Rattle.layout.specs.Proposal.{proposal_size, proposed_manifold_size, proposed_point_size, proposed_points_size};
ghost use Rattle.rules.specs.Limits.{proposed_points, stored_points};
ghost use Rattle.proposals.specs.Range.{Proposed};
ghost use Rattle.proposals.specs.Recorded.{proposed_point_at, proposed_points_at, proposed_manifold_at, proposal_at, hook_at};
ghost use Rattle.narrow_phase.specs.Views.{moved_by, left_of, filtered_by, StaysAs, PrunedTo, PointsStored, ManifoldStored, ManifoldsStored};
ghost use Rattle.narrow_phase.specs.Keeping.{KeptNumbers, PlaceOf};

use contact_filtering::filtering::Filtering;
use contact_parameters::surface::Surface;
use contact_types::contact_point::ContactPoint;
use contact_types::pruning::{KeptPoints, PrunePoint, prune_points};
use layout::limits::{PROPOSED_POINTS, STORED_POINTS};
use layout::manifold::{MANIFOLD_POINTS, MANIFOLD_SIZE, POINTS_SIZE};
use layout::point::POINT_SIZE;
use layout::proposal::{
    PROPOSAL_COUNT, PROPOSAL_HOOK, PROPOSAL_MANIFOLDS, PROPOSED_MANIFOLD_NORMAL,
    PROPOSED_MANIFOLD_POINTS, PROPOSED_MANIFOLD_SIZE, PROPOSED_POINT_SIZE,
};
use manifold_records::point::{store_listed, store_point};
use manifold_records::zeros::store_zeros;
use math::bits::bits_of;
use math::vec::Vec3;
use words::load::load;
use words::row::store_words;

// The points of a new manifold: the first `count`.
#[derive(Clone, Copy)]
pub struct ManifoldPoints {
    pub points: [ContactPoint; STORED_POINTS],
    pub count: usize,
}

// The proposed point at a place, moved, if it stays.
#[tactic(auto, using(proposals::specs::LoadedLaws::proposed_point_seen))]
fn staying_point(
    filtering: &Filtering,
    words: &[u32],
    at: usize,
    normal: Vec3,
) -> Option<ContactPoint>
    requires { at + proposed_point_size ≤ length words.now }
    ensures { StaysAs filtering.now (moved_by filtering.now normal (proposed_point_at words.now at)) result }
{
    let p = filtering.moved_point(normal, load(words, at));
    filtering.stays(&p).then_some(p)
}

// What pruning looks at in a point.
fn prune_point(p: ContactPoint) -> PrunePoint
    ensures { prune_point_of result ≡ prune_point (point_of p) }
{
    PrunePoint {
        anchor1: p.anchor1,
        penetration: p.penetration,
    }
}

// Four points or fewer are kept as they are, more are pruned.
fn kept_numbers(view: &[PrunePoint], normal: Vec3) -> KeptPoints
    requires { length view.now ≤ proposed_points }
    ensures { KeptNumbers normal (length view.now) view.now result }
{
    if view.len() <= STORED_POINTS {
        return KeptPoints {
            count: view.len() as u32,
            first: 0,
            second: 1,
            third: 2,
            fourth: 3,
        };
    }
    prune_points(view, normal)
}

// A point's place in the array. No point has a number past the array's.
fn place_of(i: u32) -> usize
    ensures { PlaceOf i result }
{
    (i as usize).min(PROPOSED_POINTS - 1)
}

// The n points from a place on; of those that stay, the ones that are kept.
// The points stay in one function: passed by value they would be copied.
fn kept_points(
    filtering: &Filtering,
    words: &[u32],
    at: usize,
    n: usize,
    normal: Vec3,
) -> ManifoldPoints
    requires { (n ≤ proposed_points) × (at + proposed_points_size ≤ length words.now) }
    ensures { PrunedTo (left_of filtering.now normal (proposed_points_at words.now at n)) result }
{
    let none = ContactPoint::new(Vec3::ZERO, Vec3::ZERO, Vec3::ZERO, 0.0);
    let mut points = [none; PROPOSED_POINTS];
    let mut view = [prune_point(none); PROPOSED_POINTS];
    let mut count: usize = 0;
    for k in 0..n {
        if let Some(p) = staying_point(filtering, words, at + k * PROPOSED_POINT_SIZE, normal) {
            points[count] = p;
            view[count] = prune_point(p);
            count += 1;
        }
    }
    let kept = kept_numbers(&view[..count], normal);
    ManifoldPoints {
        points: [
            points[place_of(kept.first)],
            points[place_of(kept.second)],
            points[place_of(kept.third)],
            points[place_of(kept.fourth)],
        ],
        count: kept.count as usize,
    }
}

// Four points or fewer: those that stay are stored, one after another. How many.
fn store_few(
    filtering: &Filtering,
    proposal: &[u32],
    at: usize,
    n: usize,
    normal: Vec3,
    words: &mut [u32],
    to: usize,
) -> usize
    requires { (n ≤ stored_points) × (at + proposed_points_size ≤ length proposal.now) × (to + points_size ≤ length words.old) }
    ensures { PointsStored (left_of filtering.now normal (proposed_points_at proposal.now at n)) to words.old words.new result }
{
    let mut count: usize = 0;
    for k in 0..n {
        if let Some(p) = staying_point(filtering, proposal, at + k * PROPOSED_POINT_SIZE, normal) {
            store_point(words, to + count * POINT_SIZE, p);
            count += 1;
        }
    }
    count
}

// The points left of those proposed, stored. Arrays are made only where there are more than four.
fn store_left(
    filtering: &Filtering,
    proposal: &[u32],
    at: usize,
    n: usize,
    normal: Vec3,
    words: &mut [u32],
    to: usize,
) -> usize
    requires { (n ≤ proposed_points) × (at + proposed_points_size ≤ length proposal.now) × (to + points_size ≤ length words.old) }
    ensures { PointsStored (left_of filtering.now normal (proposed_points_at proposal.now at n)) to words.old words.new result }
{
    if n <= STORED_POINTS {
        return store_few(filtering, proposal, at, n, normal, words, to);
    }
    let left = kept_points(filtering, proposal, at, n, normal);
    store_listed(words, to, left.points, left.count);
    left.count
}

// The number of points, and what they share.
fn surface_words(count: u32, normal: Vec3, surface: &Surface) -> [u32; MANIFOLD_POINTS]
    ensures { result ≡ count ∷ vec3_words normal ++ (float_word surface.now.friction ∷ float_word surface.now.restitution ∷ []) ++ vec3_words zero3 }
{
    [
        count,
        bits_of(normal.x),
        bits_of(normal.y),
        bits_of(normal.z),
        bits_of(surface.friction),
        bits_of(surface.restitution),
        bits_of(0.0),
        bits_of(0.0),
        bits_of(0.0),
    ]
}

// The proposed manifold at a place, filtered and pruned, is stored unless no point is left. The number of its points.
fn store_filtered(
    filtering: &Filtering,
    proposal: &[u32],
    at: usize,
    words: &mut [u32],
    to: usize,
) -> usize
    requires { (at + proposed_manifold_size ≤ length proposal.now) × (word_at proposal.now at ≤ proposed_points) × (to + manifold_size ≤ length words.old) }
    ensures { ManifoldStored (filtered_by filtering.now (proposed_manifold_at proposal.now at)) to words.old words.new result }
{
    let n = load::<usize>(proposal, at);
    let normal = load::<Vec3>(proposal, at + PROPOSED_MANIFOLD_NORMAL);
    let from = at + PROPOSED_MANIFOLD_POINTS;
    let count = store_left(
        filtering,
        proposal,
        from,
        n,
        normal,
        words,
        to + MANIFOLD_POINTS,
    );
    if count == 0 {
        return 0;
    }
    store_zeros(
        words,
        to + MANIFOLD_POINTS + count * POINT_SIZE,
        POINTS_SIZE - count * POINT_SIZE,
    );
    let shared = surface_words(count as u32, normal, &filtering.surface);
    store_words(words, to, &shared);
    count
}

// Those that have points left are stored in the order proposed, one after another. How many.
fn store_new(filtering: &Filtering, proposal: &[u32], words: &mut [u32], to: usize) -> usize
    requires { (length proposal.now ≡ proposal_size) × Proposed proposal.now 0 × (to + all_manifolds_size ≤ length words.old) }
    ensures { ManifoldsStored (without_empty (map (filtered_by filtering.now) (proposal_at proposal.now 0))) to words.old words.new result }
{
    let n = load::<usize>(proposal, PROPOSAL_COUNT);
    let mut count: usize = 0;
    for k in 0..n {
        let at = PROPOSAL_MANIFOLDS + k * PROPOSED_MANIFOLD_SIZE;
        let left = store_filtered(filtering, proposal, at, words, to + count * MANIFOLD_SIZE);
        if left != 0 {
            count += 1;
        }
    }
    count
}

// A marked pair whose hook says no loses all of them.
pub fn store_remaining(
    filtering: &Filtering,
    proposal: &[u32],
    modify: bool,
    words: &mut [u32],
    to: usize,
) -> usize
    requires { (length proposal.now ≡ proposal_size) × Proposed proposal.now 0 × (to + all_manifolds_size ≤ length words.old) }
    ensures { ManifoldsStored (remaining filtering.now.step_time (plain_side filtering.now.a) (plain_side filtering.now.b) (plain_surface filtering.now.surface) modify (hook_at proposal.now 0) (proposal_at proposal.now 0)) to words.old words.new result }
{
    let answer = load::<bool>(proposal, PROPOSAL_HOOK);
    if modify && !answer {
        return 0;
    }
    store_new(filtering, proposal, words, to)
}
