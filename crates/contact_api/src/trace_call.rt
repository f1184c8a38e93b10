// A line of a trace.
ghost use Rattle.std.specs.Prelude.{◌≡◌, ◌&&◌, [], ◌∷◌, length, Ok};
ghost use Rattle.step.specs.Step.{given, rows, long};
ghost use Rattle.trace_player.specs.Played.{lent, plain_answer};
ghost use Rattle.contact_graph.specs.Promises.{done_answer};
ghost use Rattle.contact_api.specs.Calls.{done_number};
ghost use Rattle.contact_api.specs.Layout.{player_length, play_answer_length};
ghost use Rattle.contact_api.specs.TraceCall.{player_of, player_words, AnswerTold, PlayLineCalled};

use crate::done::done_number;
use contact_types::refusal::Refusal;
use trace_player::play::{PlayedLine, play_line};
use trace_player::player::Player;

pub const PLAYER_LENGTH: usize = 5;

pub const PLAY_ANSWER_LENGTH: usize = 2;

// The rows for the player and for the answer have their lengths.
fn own_rows(player: &[u64], answer: &[u64]) -> bool
    ensures { result ≡ (long player.now player_length && long answer.now play_answer_length) }
{
    (player.len() == PLAYER_LENGTH) & (answer.len() == PLAY_ANSWER_LENGTH)
}

fn load_player(row: &[u64]) -> Player
    requires { length row.now ≡ player_length }
    ensures { result ≡ player_of row.now }
{
    Player {
        place: row[0] as usize,
        stretch: row[1] as usize,
        after_point: row[2] != 0,
        settings: row[3] != 0,
        fits: row[4] != 0,
    }
}

fn store_player(row: &mut [u64], p: Player)
    requires { length row.old ≡ player_length }
    ensures { row.new ≡ player_words p }
{
    row[0] = p.place as u64;
    row[1] = p.stretch as u64;
    row[2] = u64::from(p.after_point);
    row[3] = u64::from(p.settings);
    row[4] = u64::from(p.fits);
}

fn store_answer(row: &mut [u64], ended: u64, written: u64)
    requires { length row.old ≡ play_answer_length }
    ensures { row.new ≡ ended ∷ written ∷ [] }
{
    row[0] = ended;
    row[1] = written;
}

// A line that is played, or the trace's end: the player's row and the row for the answer.
fn tell_played(played: Option<PlayedLine>, player: &mut [u64], answer: &mut [u64])
    requires { (length player.old ≡ player_length) × (length answer.old ≡ play_answer_length) }
    ensures { AnswerTold (plain_answer (Ok played)) player.old answer.old player.new answer.new 0 }
{
    match played {
        Some(line) => {
            store_player(player, line.player);
            store_answer(answer, 0, line.written as u64);
        }
        None => store_answer(answer, 1, 0),
    }
}

// The player's row and the row for the answer, or the refusal.
fn tell(
    r: Result<Option<PlayedLine>, Refusal>,
    player: &mut [u64],
    answer: &mut [u64],
) -> Result<(), Refusal>
    requires { (length player.old ≡ player_length) × (length answer.old ≡ play_answer_length) }
    ensures { AnswerTold (plain_answer r) player.old answer.old player.new answer.new (done_number (done_answer result)) }
{
    tell_played(r?, player, answer);
    Ok(())
}

pub fn sardinerod_play_line(
    trace: &[u8],
    player: &mut [u64],
    graph: &mut [u32],
    settings: &mut [u32],
    colliders: &mut [u32],
    bodies: &mut [u32],
    proposals: &mut [u32],
    shares: &mut [u32],
    bits: &mut [u64],
    events: &mut [u32],
    changes: &mut [u32],
    distances: &mut [u32],
    out: &mut [u8],
    answer: &mut [u64],
) -> u32
    ensures { PlayLineCalled trace.now player.old (lent graph.old (given settings.old colliders.old bodies.old proposals.old shares.old) (rows bits.old events.old changes.old distances.old) out.old) answer.old player.new (lent graph.new (given settings.new colliders.new bodies.new proposals.new shares.new) (rows bits.new events.new changes.new distances.new) out.new) answer.new result }
{
    // Refused here: an inner function would repeat the fourteen parameters.
    if !own_rows(player, answer) {
        return Refusal::WrongLength.number();
    }
    let r = play_line(
        trace,
        load_player(player),
        graph,
        settings,
        colliders,
        bodies,
        proposals,
        shares,
        bits,
        events,
        changes,
        distances,
        out,
    );
    done_number(tell(r, player, answer))
}
