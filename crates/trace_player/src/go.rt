// A line that asks for a step.
ghost use Rattle.std.specs.Prelude.{◌≡◌, true, ◌&&◌};
ghost use Rattle.contact_range.specs.Range.{right_length, in_range};
ghost use Rattle.step.specs.Step.{given, given_rows, rows, lengths_fit};
ghost use Rattle.text.specs.Text.{Written};
ghost use Rattle.trace_player.specs.Played.{lent, answer_text, Room, step_effect, go_effect, Made};

use crate::fill::fill_given;
use crate::player::Player;
use contact_range::range::in_range;
use contact_types::refusal::Refusal;
use step::answer::StepReport;
use step::input::StepInput;
use step::step::step;
use trace_printing::cells::write_refused;
use trace_printing::lines::write_step;
use trace_steps::stretch::Stretch;

// What a step answered, printed from its rows.
fn print_answer(
    answer: Result<StepReport, Refusal>,
    events: &[u32],
    changes: &[u32],
    out: &mut [u8],
) -> usize
    requires { Room answer events.now changes.now }
    ensures { Written out.old 0 (answer_text answer events.now changes.now) out.new result }
{
    match answer {
        Ok(report) => write_step(
            events,
            report.events as usize,
            changes,
            report.changes as usize,
            out,
        ),
        Err(r) => write_refused(out, 0, r.number()),
    }
}

// The step, on rows that are filled.
fn play_step(
    input: &StepInput<'_>,
    graph: &mut [u32],
    bits: &mut [u64],
    events: &mut [u32],
    changes: &mut [u32],
    distances: &mut [u32],
    out: &mut [u8],
) -> usize
    ensures { Made (step_effect (given_rows input.now) graph.old (rows bits.old events.old changes.old distances.old)) out.old (lent graph.new (given_rows input.now) (rows bits.new events.new changes.new distances.new) out.new) result }
{
    let answer = step(input, graph, bits, events, changes, distances);
    print_answer(answer, events, changes, out)
}

// The numbers of the lines since the last go are in range, and the graph.
fn go_fits(fits: bool, graph: &[u32]) -> bool
    requires { right_length graph.now ≡ true }
    ensures { result ≡ (fits && in_range graph.now) }
{
    fits && in_range(graph)
}

// The rows are filled by the lines since the last go, where their numbers and the graph are in range.
pub fn play_go(
    trace: &[u8],
    player: Player,
    graph: &mut [u32],
    settings: &mut [u32],
    colliders: &mut [u32],
    bodies: &mut [u32],
    proposals: &mut [u32],
    shares: &mut [u32],
    bits: &mut [u64],
    events: &mut [u32],
    changes: &mut [u32],
    distances: &mut [u32],
    out: &mut [u8],
) -> usize
    requires { lengths_fit (given settings.old colliders.old bodies.old proposals.old shares.old) graph.old (rows bits.old events.old changes.old distances.old) ≡ true }
    ensures { Made (go_effect trace.now player graph.old (given settings.old colliders.old bodies.old proposals.old shares.old) (rows bits.old events.old changes.old distances.old)) out.old (lent graph.new (given settings.new colliders.new bodies.new proposals.new shares.new) (rows bits.new events.new changes.new distances.new) out.new) result }
{
    if !go_fits(player.fits, graph) {
        return write_refused(out, 0, Refusal::OutOfRange.number());
    }
    let stretch = Stretch {
        text: trace,
        start: player.stretch,
        stop: player.place,
    };
    fill_given(
        stretch, graph, settings, colliders, bodies, proposals, shares,
    );
    let input = StepInput {
        settings,
        colliders,
        bodies,
        proposals,
        shares,
    };
    play_step(&input, graph, bits, events, changes, distances, out)
}
