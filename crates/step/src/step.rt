// The public call `step`.
ghost use Rattle.std.specs.Prelude.{◌≡◌};
ghost use Rattle.step.specs.Step.{given_rows, rows, step_refusal, StepDone, Stepped};

use crate::answer::StepReport;
use crate::input::StepInput;
use crate::lengths::lengths_fit;
use crate::numbers::{numbers_fit, proposals_fit};
use collider::settings::load_settings;
use contact_types::refusal::Refusal;
use contact_update::input::UpdateInput;
use data_structures::bit_vec::blocks;
use layout::graph::GRAPH_CAPACITY;
use layout::limits::MOST_CONTACTS;
use shares::range::shares_fit;
use status_pass::pass::pass;
use update_pass::all::update_all;
use update_pass::standing::standing;
use words::load::load;

// A step that nothing refuses.
fn step_accepted(
    input: &StepInput<'_>,
    graph: &mut [u32],
    bits: &mut [u64],
    events: &mut [u32],
    changes: &mut [u32],
    distances: &mut [u32],
) -> StepReport
    requires { step_refusal (given_rows input.now) graph.old (rows bits.old events.old changes.old distances.old) ≡ 0 }
    ensures { StepDone (given_rows input.now) graph.old (rows bits.old events.old changes.old distances.old) graph.new (rows bits.new events.new changes.new distances.new) result }
{
    let read = UpdateInput {
        settings: load_settings(input.settings),
        colliders: input.colliders,
        bodies: input.bodies,
        proposals: input.proposals,
    };
    let count = blocks(load::<usize>(graph, GRAPH_CAPACITY));
    let recycled = update_all(&read, input.shares, graph, bits, distances);
    let mut ids = [0u32; MOST_CONTACTS];
    let n = standing(bits, count, &mut ids);
    let counts = pass(graph, events, changes, &ids[..n]);
    StepReport {
        events: counts.events as u32,
        changes: counts.changes as u32,
        recycled,
    }
}

pub fn step(
    input: &StepInput<'_>,
    graph: &mut [u32],
    bits: &mut [u64],
    events: &mut [u32],
    changes: &mut [u32],
    distances: &mut [u32],
) -> Result<StepReport, Refusal>
    ensures { Stepped (given_rows input.now) graph.old (rows bits.old events.old changes.old distances.old) graph.new (rows bits.new events.new changes.new distances.new) result }
{
    if !lengths_fit(input, graph, bits, events, changes, distances) {
        return Err(Refusal::WrongLength);
    }
    if !numbers_fit(input, graph) {
        return Err(Refusal::OutOfRange);
    }
    if !proposals_fit(input.proposals, graph) {
        return Err(Refusal::ProposalTooLarge);
    }
    if !shares_fit(input.shares, graph) {
        return Err(Refusal::InvalidShares);
    }
    Ok(step_accepted(input, graph, bits, events, changes, distances))
}
