// The public call `prune`: which of the lent points stay, where they are more than are stored and no more than are proposed.
ghost use Rattle.std.specs.Prelude.{◌*◌, ◌+◌, ◌≤◌, ◌<◌, ◌≡◌, length};
ghost use Rattle.layout.specs.Prune.{prune_point_size, prune_points_length};
ghost use Rattle.rules.specs.Limits.{proposed_points};
ghost use Rattle.contact_types.specs.Prune.{recorded_prune_point, LoadedPoints, Pruned};

use crate::pruning::{KeptPoints, PrunePoint, prune_points};
use crate::refusal::Refusal;
use layout::limits::{PROPOSED_POINTS, STORED_POINTS};
use layout::prune::{PRUNE_POINT_PENETRATION, PRUNE_POINT_SIZE, PRUNE_POINTS_LENGTH};
use math::vec::Vec3;
use words::load::{FromRow, load};

impl FromRow for PrunePoint {
    ghost size = { prune_point_size };

    ghost at = { recorded_prune_point };

    fn from_row(row: &[u32], from: usize) -> PrunePoint {
        PrunePoint {
            anchor1: load(row, from),
            penetration: load(row, from + PRUNE_POINT_PENETRATION),
        }
    }
}

fn load_points(points: &[u32], count: usize) -> [PrunePoint; PROPOSED_POINTS]
    requires { (count ≤ proposed_points) × (length points.now ≡ prune_points_length) }
    ensures { LoadedPoints points.now result count }
{
    let mut loaded = [PrunePoint::default(); PROPOSED_POINTS];
    for k in 0..count {
        loaded[k] = load(points, PRUNE_POINT_SIZE * k);
    }
    loaded
}

// The points' numbers go by their places in the buffer, from 0.
#[tactic(auto, unfolding(crate::specs::Prune::prune_answer))]
pub fn prune(normal: Vec3, points: &[u32], count: u32) -> Result<KeptPoints, Refusal>
    ensures { Pruned normal points.now count result }
{
    if points.len() != PRUNE_POINTS_LENGTH {
        return Err(Refusal::WrongLength);
    }
    if count as usize <= STORED_POINTS {
        return Err(Refusal::TooFewPoints);
    }
    if PROPOSED_POINTS < count as usize {
        return Err(Refusal::ProposalTooLarge);
    }
    let loaded = load_points(points, count as usize);
    Ok(prune_points(&loaded[..count as usize], normal))
}
