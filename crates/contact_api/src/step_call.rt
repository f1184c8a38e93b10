// The step.
ghost use Rattle.contact_graph.specs.Promises.{done_answer};
ghost use Rattle.step.specs.Step.{given, given_rows, rows};
ghost use Rattle.contact_api.specs.Calls.{done_number, StepCalled};

use crate::done::done_number;
use contact_types::refusal::Refusal;
use step::input::StepInput;
use step::step::step;
use words::row::store_words;

pub const STEP_ANSWER_LENGTH: usize = 3;

fn step_called(
    input: &StepInput<'_>,
    graph: &mut [u32],
    bits: &mut [u64],
    events: &mut [u32],
    changes: &mut [u32],
    distances: &mut [u32],
    answer: &mut [u32],
) -> Result<(), Refusal>
    ensures { StepCalled (given_rows input.now) graph.old (rows bits.old events.old changes.old distances.old) answer.old graph.new (rows bits.new events.new changes.new distances.new) answer.new (done_number (done_answer result)) }
{
    if answer.len() != STEP_ANSWER_LENGTH {
        return Err(Refusal::WrongLength);
    }
    let report = step(input, graph, bits, events, changes, distances)?;
    let words = [report.events, report.changes, report.recycled];
    store_words(answer, 0, &words);
    Ok(())
}

// The rows stand apart, as C lends them.
pub fn sardinerod_step(
    settings: &[u32],
    colliders: &[u32],
    bodies: &[u32],
    proposals: &[u32],
    shares: &[u32],
    graph: &mut [u32],
    bits: &mut [u64],
    events: &mut [u32],
    changes: &mut [u32],
    distances: &mut [u32],
    answer: &mut [u32],
) -> u32
    ensures { StepCalled (given settings.now colliders.now bodies.now proposals.now shares.now) graph.old (rows bits.old events.old changes.old distances.old) answer.old graph.new (rows bits.new events.new changes.new distances.new) answer.new result }
{
    let input = StepInput {
        settings,
        colliders,
        bodies,
        proposals,
        shares,
    };
    done_number(step_called(&input, graph, bits, events, changes, distances, answer))
}
