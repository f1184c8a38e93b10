// A proposed point by value, and the range of a proposal's counts.
ghost use Rattle.std.specs.Prelude.{◌≡◌, ◌+◌, ◌≤◌, ◌<◌, length};
ghost use Rattle.layout.specs.Proposal.{proposal_size, proposed_point_size};
ghost use Rattle.proposals.specs.Range.{proposal_fits, hook_fits};
ghost use Rattle.proposals.specs.Views.{recorded_proposed_point};

use contact_types::feature_id::PackedFeatureId;
use layout::limits::{MANIFOLDS, PROPOSED_POINTS};
use layout::proposal::{
    PROPOSAL_COUNT, PROPOSAL_MANIFOLDS, PROPOSED_MANIFOLD_SIZE, PROPOSED_POINT_ANCHOR2,
    PROPOSED_POINT_FEATURE2, PROPOSED_POINT_FEATURES, PROPOSED_POINT_PENETRATION,
    PROPOSED_POINT_POSITION,
};
use math::vec::Vec3;
use words::load::{FromRow, load};
use words::row::mark_fits;

// What a shape proposes.
#[derive(Clone, Copy)]
pub struct ProposedPoint {
    pub anchor1: Vec3,
    pub anchor2: Vec3,
    pub point: Vec3,
    pub penetration: f32,
    pub feature_id1: PackedFeatureId,
    pub feature_id2: PackedFeatureId,
}

impl FromRow for ProposedPoint {
    ghost size = { proposed_point_size };

    ghost at = { recorded_proposed_point };

    #[tactic(auto, unfolding(crate::specs::Views::recorded_proposed_point))]
    fn from_row(row: &[u32], from: usize) -> ProposedPoint {
        ProposedPoint {
            anchor1: load(row, from),
            anchor2: load(row, from + PROPOSED_POINT_ANCHOR2),
            point: load(row, from + PROPOSED_POINT_POSITION),
            penetration: load(row, from + PROPOSED_POINT_PENETRATION),
            feature_id1: load(row, from + PROPOSED_POINT_FEATURES),
            feature_id2: load(row, from + PROPOSED_POINT_FEATURE2),
        }
    }
}

// The hook's answer is a mark.
#[tactic(auto, unfolding(crate::specs::Range::hook_fits))]
pub fn hook_fits(words: &[u32], at: usize) -> bool
    requires { at < length words.now }
    ensures { result ≡ hook_fits words.now at }
{
    mark_fits(words, at)
}

// At most as many manifolds as a pair has, and in each that is counted at most as many points as are proposed for one.
#[tactic(auto, unfolding(crate::specs::Range::proposal_fits))]
pub fn proposal_fits(words: &[u32], at: usize) -> bool
    requires { at + proposal_size ≤ length words.now }
    ensures { result ≡ proposal_fits words.now at }
{
    let count = load::<usize>(words, at + PROPOSAL_COUNT);
    let first = at + PROPOSAL_MANIFOLDS;
    let fits = |k| load::<usize>(words, first + k * PROPOSED_MANIFOLD_SIZE) <= PROPOSED_POINTS;
    count <= MANIFOLDS && (0..count).all(fits)
}
