// Refusals 2 and 6: every number that is read is in range, and no active pair's proposal is too large.
ghost use Rattle.std.specs.Prelude.{◌≡◌, true, ◌*◌, ◌<◌, length};
ghost use Rattle.layout.specs.Body.{bodies_length};
ghost use Rattle.layout.specs.Collider.{colliders_length};
ghost use Rattle.layout.specs.Proposal.{proposal_size};
ghost use Rattle.layout.specs.Settings.{settings_length};
ghost use Rattle.contact_range.specs.Checked.{Checked};
ghost use Rattle.contact_range.specs.Range.{right_length};
ghost use Rattle.contact_range.specs.Recorded.{capacity_of, listed_count, listed_at};
ghost use Rattle.step.specs.Step.{given_rows, hooks_fit, numbers_fit, proposals_fit};

use crate::input::StepInput;
use collider::range::{bodies_fit, colliders_fit, settings_fit};
use contact_range::places::id_at;
use contact_range::range::in_range;
use layout::graph::{GRAPH_LIST, GRAPH_LISTED};
use layout::proposal::PROPOSAL_SIZE;
use proposals::proposal::{hook_fits, proposal_fits};
use words::load::load;

// Where the proposal of the contact at a place of the list begins.
fn proposal_at(graph: &[u32], p: usize) -> usize
    requires { Checked graph.now × (p < listed_count graph.now) }
    ensures { result ≡ listed_at graph.now p * proposal_size }
{
    let id = id_at(graph, GRAPH_LIST + p);
    id.0 as usize * PROPOSAL_SIZE
}

// The hook's answer for each active pair is a mark.
fn hooks_fit(proposals: &[u32], graph: &[u32]) -> bool
    requires { Checked graph.now × (length proposals.now ≡ capacity_of graph.now * proposal_size) }
    ensures { result ≡ hooks_fit proposals.now graph.now }
{
    let listed = load::<usize>(graph, GRAPH_LISTED);
    (0..listed).all(|p| hook_fits(proposals, proposal_at(graph, p)))
}

// No active pair's proposal has more manifolds, nor a manifold of it more points, than the limits.
pub fn proposals_fit(proposals: &[u32], graph: &[u32]) -> bool
    requires { Checked graph.now × (length proposals.now ≡ capacity_of graph.now * proposal_size) }
    ensures { result ≡ proposals_fit proposals.now graph.now }
{
    let listed = load::<usize>(graph, GRAPH_LISTED);
    (0..listed).all(|p| proposal_fits(proposals, proposal_at(graph, p)))
}

#[tactic(auto, using(contact_graph::specs::CallLaws::checked), unfolding(crate::specs::Step::rows_in_range))]
pub fn numbers_fit(input: &StepInput<'_>, graph: &[u32]) -> bool
    requires { (length input.now.settings.now ≡ settings_length) × (length input.now.colliders.now ≡ colliders_length) × (length input.now.bodies.now ≡ bodies_length) × (length input.now.proposals.now ≡ capacity_of graph.now * proposal_size) × (right_length graph.now ≡ true) }
    ensures { result ≡ numbers_fit (given_rows input.now) graph.now }
{
    settings_fit(input.settings)
        && colliders_fit(input.colliders)
        && bodies_fit(input.bodies)
        && in_range(graph)
        && hooks_fit(input.proposals, graph)
}
