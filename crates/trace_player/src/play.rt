// The public call `play_line`.
ghost use Rattle.std.specs.Prelude.{◌≡◌, true};
ghost use Rattle.step.specs.Step.{given, rows, lengths_fit};
ghost use Rattle.trace_player.specs.Played.{lent, lent_fits, AskedPlayed, LinePlayed};

use crate::additions::{play_addition, request_words};
use crate::go::play_go;
use crate::player::{Player, next_line};
use contact_types::refusal::Refusal;
use layout::graph::GRAPH_CAPACITY;
use step::input::StepInput;
use step::lengths::lengths_fit;
use trace_lines::line::LINE_WORDS;
use trace_lines::line_kind::LineKind;
use trace_printing::cells::write_refused;
use trace_printing::lines::PRINTED_SIZE;
use words::load::load;

// The player for the next line, and how many bytes the line printed, from the start of the row for them.
#[derive(Clone, Copy, PartialEq, Eq, Debug)]
pub struct PlayedLine {
    pub player: Player,
    pub written: usize,
}

// What an unreadable line prints.
const UNREADABLE: u32 = 10;

// Every length is the one for the graph.
#[tactic(auto, unfolding(crate::specs::Played::lent_fits))]
fn lent_fit(
    graph: &[u32],
    settings: &[u32],
    colliders: &[u32],
    bodies: &[u32],
    proposals: &[u32],
    shares: &[u32],
    bits: &[u64],
    events: &[u32],
    changes: &[u32],
    distances: &[u32],
    out: &[u8],
) -> bool
    ensures { result ≡ lent_fits (lent graph.now (given settings.now colliders.now bodies.now proposals.now shares.now) (rows bits.now events.now changes.now distances.now) out.now) }
{
    let input = StepInput {
        settings,
        colliders,
        bodies,
        proposals,
        shares,
    };
    lengths_fit(&input, graph, bits, events, changes, distances)
        && out.len() == load::<usize>(graph, GRAPH_CAPACITY) * PRINTED_SIZE
}

// The line at the player's place is played.
fn play_asked(
    trace: &[u8],
    player: Player,
    graph: &mut [u32],
    settings: &mut [u32],
    colliders: &mut [u32],
    bodies: &mut [u32],
    proposals: &mut [u32],
    shares: &mut [u32],
    bits: &mut [u64],
    events: &mut [u32],
    changes: &mut [u32],
    distances: &mut [u32],
    out: &mut [u8],
) -> PlayedLine
    requires { lengths_fit (given settings.old colliders.old bodies.old proposals.old shares.old) graph.old (rows bits.old events.old changes.old distances.old) ≡ true }
    ensures { AskedPlayed trace.now player (lent graph.old (given settings.old colliders.old bodies.old proposals.old shares.old) (rows bits.old events.old changes.old distances.old) out.old) (lent graph.new (given settings.new colliders.new bodies.new proposals.new shares.new) (rows bits.new events.new changes.new distances.new) out.new) result }
{
    let mut words = [0u32; LINE_WORDS];
    let Some(line) = next_line(trace, player, &mut words) else {
        let written = write_refused(out, 0, UNREADABLE);
        return PlayedLine {
            player: Player::at(trace.len()),
            written,
        };
    };
    let written = match line.kind {
        LineKind::Go => play_go(
            trace, player, graph, settings, colliders, bodies, proposals, shares, bits, events,
            changes, distances, out,
        ),
        LineKind::Addition => play_addition(graph, &request_words(words), out),
        _ => 0,
    };
    PlayedLine {
        player: line.player,
        written,
    }
}

// The rows are passed on one by one, and each contract tells them apart by their names: a struct of `&mut` rows would be taken apart again where they are filled and where the step is made.
pub fn play_line(
    trace: &[u8],
    player: Player,
    graph: &mut [u32],
    settings: &mut [u32],
    colliders: &mut [u32],
    bodies: &mut [u32],
    proposals: &mut [u32],
    shares: &mut [u32],
    bits: &mut [u64],
    events: &mut [u32],
    changes: &mut [u32],
    distances: &mut [u32],
    out: &mut [u8],
) -> Result<Option<PlayedLine>, Refusal>
    ensures { LinePlayed trace.now player (lent graph.old (given settings.old colliders.old bodies.old proposals.old shares.old) (rows bits.old events.old changes.old distances.old) out.old) (lent graph.new (given settings.new colliders.new bodies.new proposals.new shares.new) (rows bits.new events.new changes.new distances.new) out.new) result }
{
    if !lent_fit(
        graph, settings, colliders, bodies, proposals, shares, bits, events, changes, distances,
        out,
    ) {
        return Err(Refusal::WrongLength);
    }
    if player.place >= trace.len() {
        return Ok(None);
    }
    Ok(Some(play_asked(
        trace, player, graph, settings, colliders, bodies, proposals, shares, bits, events,
        changes, distances, out,
    )))
}
