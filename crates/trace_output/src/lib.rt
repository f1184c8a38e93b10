// A trace played at capacity 4, written out as it plays.
#![tactic(auto)]

use contact_graph::lay_out::lay_out;
use contact_types::refusal::Refusal;
use layout::body::BODIES_LENGTH;
use layout::change::CHANGE_SIZE;
use layout::collider::COLLIDERS_LENGTH;
use layout::contact::CONTACT_SIZE;
use layout::event::EVENT_SIZE;
use layout::graph::GRAPH_LIST;
use layout::limits::MOST_WORKERS;
use layout::proposal::PROPOSAL_SIZE;
use layout::settings::SETTINGS_LENGTH;
use layout::shares::SHARES_ENTRIES;
use std::alloc::Global;
use std::io;
use std::io::{Read, Write};
use trace_player::play::{PlayedLine, play_line};
use trace_player::player::Player;
use trace_printing::lines::PRINTED_SIZE;

// A trace that is longer is not played.
pub const LONGEST_TRACE: usize = 65536;

// One byte more than is played.
const MOST_READ: u64 = LONGEST_TRACE as u64 + 1;

const CAPACITY: usize = 4;

const GRAPH_LENGTH: usize = GRAPH_LIST + 2 * CAPACITY + CAPACITY * CONTACT_SIZE;

const PRINTED_LENGTH: usize = CAPACITY * PRINTED_SIZE;

// What the player is lent. A word of bits holds every contact.
#[derive(Clone, Copy, PartialEq, Eq, Debug)]
struct Lent {
    graph: [u32; GRAPH_LENGTH],
    settings: [u32; SETTINGS_LENGTH],
    colliders: [u32; COLLIDERS_LENGTH],
    bodies: [u32; BODIES_LENGTH],
    proposals: [u32; CAPACITY * PROPOSAL_SIZE],
    shares: [u32; SHARES_ENTRIES + CAPACITY],
    bits: [u64; MOST_WORKERS],
    events: [u32; CAPACITY * EVENT_SIZE],
    changes: [u32; CAPACITY * CHANGE_SIZE],
    distances: [u32; CAPACITY],
    printed: [u8; PRINTED_LENGTH],
}

impl Lent {
    fn new() -> Self {
        Lent {
            graph: [0; GRAPH_LENGTH],
            settings: [0; SETTINGS_LENGTH],
            colliders: [0; COLLIDERS_LENGTH],
            bodies: [0; BODIES_LENGTH],
            proposals: [0; CAPACITY * PROPOSAL_SIZE],
            shares: [0; SHARES_ENTRIES + CAPACITY],
            bits: [0; MOST_WORKERS],
            events: [0; CAPACITY * EVENT_SIZE],
            changes: [0; CAPACITY * CHANGE_SIZE],
            distances: [0; CAPACITY],
            printed: [0; PRINTED_LENGTH],
        }
    }

    fn play(&mut self, trace: &[u8], player: Player) -> Result<Option<PlayedLine>, Refusal> {
        play_line(
            trace,
            player,
            &mut self.graph,
            &mut self.settings,
            &mut self.colliders,
            &mut self.bodies,
            &mut self.proposals,
            &mut self.shares,
            &mut self.bits,
            &mut self.events,
            &mut self.changes,
            &mut self.distances,
            &mut self.printed,
        )
    }
}

// A line has a byte at least, so that as many calls as the trace has bytes are enough.
pub fn print_trace<W: Write>(out: &mut W, trace: &[u8]) -> io::Result<()> {
    let mut lent = Lent::new();
    let _ = lay_out(&mut lent.graph, CAPACITY as u32);
    let mut player = Player::at(0);
    for _ in trace {
        let Ok(Some(line)) = lent.play(trace, player) else {
            return Ok(());
        };
        let Some(printed) = lent.printed.get(..line.written) else {
            return Ok(());
        };
        out.write_all(printed)?;
        player = line.player;
    }
    Ok(())
}

// What the trace that is read prints: 1 alone where it is too long.
pub fn print_read<R: Read + Drop, W: Write>(alloc: Global, from: R, out: &mut W) -> io::Result<()> {
    let mut text = Vec::new(alloc);
    from.take(MOST_READ).read_to_end(&mut text)?;
    if text.len() > LONGEST_TRACE {
        return writeln!(out, "1");
    }
    print_trace(out, text.as_slice())
}
