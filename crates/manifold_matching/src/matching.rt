// The new manifolds are matched where they stand, against the words of the old ones. From `match_contacts` of avian's contact_types/mod.rs.
ghost use Rattle.std.specs.Prelude.{◌≡◌, ◌*◌, ◌+◌, ◌≤◌, length};
ghost use Rattle.math.specs.Floats.{◌⊗◌};
ghost use Rattle.rows.specs.Rows.{put};
ghost use Rattle.words.specs.Words.{word_at};
ghost use Rattle.layout.specs.Manifold.{manifold_size, points_size};
ghost use Rattle.layout.specs.Point.{point_size, point_warm_start_normal_impulse};
ghost use Rattle.rules.specs.Limits.{stored_points};
ghost use Rattle.rules.specs.Matching.{feature_rule, matches};
ghost use Rattle.contact_types.specs.Views.{point_of};
ghost use Rattle.manifold_records.specs.Recorded.{point_at, points_at, manifold_at};
ghost use Rattle.manifold_matching.specs.Matched.{impulse_words, manifolds_from, WrittenManifold, WrittenManifolds, OldManifolds, PointMatched, ManifoldMatched, AllMatched, ManifoldsMatched};

use contact_types::contact_point::ContactPoint;
use contact_types::matching::matches;
use layout::manifold::{MANIFOLD_POINTS, MANIFOLD_SIZE};
use layout::point::{
    POINT_SIZE, POINT_WARM_START_NORMAL_IMPULSE, POINT_WARM_START_TANGENT_IMPULSE,
    POINT_WARM_START_TANGENT_IMPULSE_Y,
};
use words::load::load;
use words::store::store;

// How a new point is matched with an old one: whether features are compared by place, and how close anchors are to be.
#[derive(Clone, Copy, PartialEq, Debug)]
pub struct Matching {
    pub by_place: bool,
    pub threshold: f32,
}

impl Matching {
    fn matches(self, new: ContactPoint, old: ContactPoint) -> bool
        ensures { result ≡ matches (feature_rule self.by_place) (self.threshold ⊗ self.threshold) (point_of new) (point_of old) }
    {
        matches(new, old, self.by_place, self.threshold * self.threshold)
    }
}

// The two warm start impulses of the old point at a place, and nothing else of it.
#[tactic(auto, using(crate::specs::MatchingLaws::impulses_taken))]
fn take_impulses(words: &mut [u32], at: usize, olds: &[u32], from: usize)
    requires { (at + point_size ≤ length words.old) × (from + point_size ≤ length olds.now) }
    ensures { words.new ≡ put words.old (at + point_warm_start_normal_impulse) (impulse_words (point_at olds.now from)) }
{
    store(
        words,
        at + POINT_WARM_START_NORMAL_IMPULSE,
        load::<f32>(olds, from + POINT_WARM_START_NORMAL_IMPULSE),
    );
    store(
        words,
        at + POINT_WARM_START_TANGENT_IMPULSE,
        load::<f32>(olds, from + POINT_WARM_START_TANGENT_IMPULSE),
    );
    store(
        words,
        at + POINT_WARM_START_TANGENT_IMPULSE_Y,
        load::<f32>(olds, from + POINT_WARM_START_TANGENT_IMPULSE_Y),
    );
}

// The first of the n old points that matches gives its impulses.
fn match_point(words: &mut [u32], at: usize, olds: &[u32], from: usize, n: usize, rule: Matching)
    requires { (at + point_size ≤ length words.old) × (n ≤ stored_points) × (from + points_size ≤ length olds.now) }
    ensures { PointMatched (feature_rule rule.by_place) (rule.threshold ⊗ rule.threshold) (points_at olds.now from n) at words.old words.new }
{
    let new = load::<ContactPoint>(words, at);
    for k in 0..n {
        let old = load::<ContactPoint>(olds, from + k * POINT_SIZE);
        if rule.matches(new, old) {
            take_impulses(words, at, olds, from + k * POINT_SIZE);
            return;
        }
    }
}

// Each point of the manifold, against the points of one old manifold.
fn match_contacts(words: &mut [u32], at: usize, olds: &[u32], from: usize, rule: Matching)
    requires { WrittenManifold words.old at × (at + manifold_size ≤ length words.old) × (from + manifold_size ≤ length olds.now) × (word_at olds.now from ≤ stored_points) }
    ensures { ManifoldMatched (feature_rule rule.by_place) rule.threshold (manifold_at olds.now from).points at words.old words.new }
{
    let count = load::<usize>(words, at);
    let n = load::<usize>(olds, from);
    for k in 0..count {
        match_point(
            words,
            at + MANIFOLD_POINTS + k * POINT_SIZE,
            olds,
            from + MANIFOLD_POINTS,
            n,
            rule,
        );
    }
}

// Against each of the m old manifolds in turn: a later one overrides.
fn match_all(words: &mut [u32], at: usize, olds: &[u32], m: usize, rule: Matching)
    requires { WrittenManifold words.old at × (at + manifold_size ≤ length words.old) × OldManifolds olds.now m }
    ensures { AllMatched (feature_rule rule.by_place) rule.threshold (manifolds_from olds.now m) at words.old words.new }
{
    for j in 0..m {
        match_contacts(words, at, olds, j * MANIFOLD_SIZE, rule);
    }
}

// The n manifolds that stand one after another from a place on.
pub fn match_manifolds(
    words: &mut [u32],
    at: usize,
    n: usize,
    olds: &[u32],
    m: usize,
    rule: Matching,
)
    requires { WrittenManifolds words.old at n × (at + n * manifold_size ≤ length words.old) × OldManifolds olds.now m }
    ensures { ManifoldsMatched (feature_rule rule.by_place) rule.threshold (manifolds_from olds.now m) at n words.old words.new }
{
    for i in 0..n {
        match_all(words, at + i * MANIFOLD_SIZE, olds, m, rule);
    }
}
