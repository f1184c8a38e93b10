// A pair's proposal, from the lines of a stretch of text: the hook's last answer, and every manifold with the points below it.
ghost use Rattle.std.specs.Prelude.{◌≡◌, ◌+◌, ◌≤◌, length, set};
ghost use Rattle.rows.specs.Rows.{put};
ghost use Rattle.rules.specs.Limits.{proposed_points};
ghost use Rattle.layout.specs.Proposal.{proposal_hook, proposal_size};
ghost use Rattle.manifold_records.specs.Written.{zeros};
ghost use Rattle.trace_lines.specs.Items.{letter_of};
ghost use Rattle.trace_rules.specs.Play.{proposal_words};
ghost use Rattle.trace_rules.specs.Records.{step_record};
ghost use Rattle.trace_steps.specs.Lines.{raised, of_pair_at, manifold_stored, point_stored, progress, hook_taken, manifold_taken, point_taken, line_taken};
ghost use Rattle.trace_steps.specs.Stretch.{lines_of};

use crate::row::store_part;
use crate::stretch::Stretch;
use contact_graph::add::same_colliders;
use layout::limits::{MANIFOLDS, PROPOSED_POINTS};
use layout::proposal::{
    PROPOSAL_COUNT, PROPOSAL_HOOK, PROPOSAL_MANIFOLDS, PROPOSAL_SIZE, PROPOSED_MANIFOLD_NORMAL,
    PROPOSED_MANIFOLD_POINTS, PROPOSED_MANIFOLD_SIZE, PROPOSED_POINT_SIZE,
};
use trace_lines::line::LINE_WORDS;
use trace_lines::line_kind::LineKind;
use words::row::store_words;

// Behind its two colliders a line has the hook's answer, or the normal.
const LINE_ANSWER: usize = 2;

const LINE_NORMAL: usize = 2;

const NORMAL_SIZE: usize = PROPOSED_MANIFOLD_POINTS - PROPOSED_MANIFOLD_NORMAL;

const MOST_MANIFOLDS: u32 = MANIFOLDS as u32;

const MOST_POINTS: u32 = PROPOSED_POINTS as u32;

// The colliders of a contact.
#[derive(Clone, Copy, PartialEq, Eq, Debug)]
pub struct Pair {
    pub collider1: u32,
    pub collider2: u32,
}

// How many manifolds the pair has, the one that points join (its number from 0 on), and how many points that has.
// A count past its limit stays at the next number.
#[derive(Clone, Copy, PartialEq, Eq, Debug)]
pub struct Counts {
    pub manifolds: u32,
    pub last: Option<u32>,
    pub points: u32,
}

// One more, up to the number after the limit.
#[tactic(auto, unfolding(crate::specs::Lines::raised))]
fn raise(n: u32, limit: u32) -> u32
    requires { limit ≤ proposed_points }
    ensures { result ≡ raised limit n }
{
    if n <= limit { n + 1 } else { n }
}

impl Pair {
    // The line names the pair, in either order.
    fn is_named(self, words: &[u32; LINE_WORDS]) -> bool
        ensures { result ≡ of_pair_at self.collider1 self.collider2 words.now }
    {
        same_colliders(self.collider1, self.collider2, words[0], words[1])
    }
}

// The pair's answer, the last of them.
#[tactic(auto, unfolding(crate::specs::Lines::hook_taken, rows::specs::Rows::put))]
fn take_hook(row: &mut [u32; PROPOSAL_SIZE], words: &[u32; LINE_WORDS], pair: Pair)
    ensures { row.new ≡ hook_taken pair.collider1 pair.collider2 words.now row.old }
{
    if pair.is_named(words) {
        row[PROPOSAL_HOOK] = words[LINE_ANSWER];
    }
}

// Manifold n, without points: past the limit only the count is written.
#[tactic(auto, using(crate::specs::CodeLaws::manifold_past, crate::specs::CodeLaws::manifold_room))]
fn store_manifold(row: &mut [u32; PROPOSAL_SIZE], words: &[u32; LINE_WORDS], n: u32)
    ensures { row.new ≡ manifold_stored n words.now row.old }
{
    row[PROPOSAL_COUNT] = raise(n, MOST_MANIFOLDS);
    if n >= MOST_MANIFOLDS {
        return;
    }
    let at = PROPOSAL_MANIFOLDS + n as usize * PROPOSED_MANIFOLD_SIZE;
    row[at] = 0;
    let normal = at + PROPOSED_MANIFOLD_NORMAL;
    store_part(row, normal, words, LINE_NORMAL, NORMAL_SIZE);
}

// A manifold of another pair ends the points of the last one.
#[tactic(auto, unfolding(crate::specs::Lines::manifold_taken))]
fn take_manifold(
    row: &mut [u32; PROPOSAL_SIZE],
    words: &[u32; LINE_WORDS],
    pair: Pair,
    counts: Counts,
) -> Counts
    ensures { progress row.new result ≡ manifold_taken pair.collider1 pair.collider2 words.now (progress row.old counts) }
{
    if !pair.is_named(words) {
        return Counts {
            manifolds: counts.manifolds,
            last: None,
            points: 0,
        };
    }
    store_manifold(row, words, counts.manifolds);
    Counts {
        manifolds: raise(counts.manifolds, MOST_MANIFOLDS),
        last: Some(counts.manifolds),
        points: 0,
    }
}

// A point of manifold n, which has so many points. Past the limits the words, or the count too, are left out.
#[tactic(auto, using(crate::specs::CodeLaws::point_added, crate::specs::CodeLaws::point_full, crate::specs::CodeLaws::point_nowhere))]
fn store_point(row: &mut [u32; PROPOSAL_SIZE], words: &[u32; LINE_WORDS], n: u32, points: u32)
    ensures { row.new ≡ point_stored n points words.now row.old }
{
    if n >= MOST_MANIFOLDS {
        return;
    }
    let at = PROPOSAL_MANIFOLDS + n as usize * PROPOSED_MANIFOLD_SIZE;
    row[at] = raise(points, MOST_POINTS);
    if points >= MOST_POINTS {
        return;
    }
    let place = at + PROPOSED_MANIFOLD_POINTS + points as usize * PROPOSED_POINT_SIZE;
    store_part(row, place, words, 0, PROPOSED_POINT_SIZE);
}

// A point where the line above it, or above the points above it, is a manifold of the pair.
#[tactic(auto, unfolding(crate::specs::Lines::point_taken))]
fn take_point(row: &mut [u32; PROPOSAL_SIZE], words: &[u32; LINE_WORDS], counts: Counts) -> Counts
    ensures { progress row.new result ≡ point_taken words.now (progress row.old counts) }
{
    let Some(n) = counts.last else {
        return counts;
    };
    store_point(row, words, n, counts.points);
    Counts {
        manifolds: counts.manifolds,
        last: Some(n),
        points: raise(counts.points, MOST_POINTS),
    }
}

// One line: a hook's answer, a manifold, a point, or another that changes nothing here.
#[tactic(auto, unfolding(crate::specs::Lines::line_taken))]
fn take_line(
    row: &mut [u32; PROPOSAL_SIZE],
    kind: LineKind,
    words: &[u32; LINE_WORDS],
    pair: Pair,
    counts: Counts,
) -> Counts
    ensures { progress row.new result ≡ line_taken pair.collider1 pair.collider2 (letter_of kind) words.now (progress row.old counts) }
{
    match kind {
        LineKind::Hook => {
            take_hook(row, words, pair);
            counts
        }
        LineKind::Manifold => take_manifold(row, words, pair, counts),
        LineKind::Point => take_point(row, words, counts),
        _ => counts,
    }
}

// The lines of a stretch, into a row with the hook's yes alone.
fn read_proposal(stretch: Stretch<'_>, pair: Pair, row: &mut [u32; PROPOSAL_SIZE])
    requires { row.old ≡ set (zeros proposal_size) proposal_hook 1 }
    ensures { row.new ≡ proposal_words ((step_record (lines_of stretch.entry)).proposal pair.collider1 pair.collider2) }
{
    let mut counts = Counts {
        manifolds: 0,
        last: None,
        points: 0,
    };
    let mut lines = stretch.lines();
    while let Some(kind) = lines.next() {
        counts = take_line(row, kind, &lines.words, pair, counts);
    }
}

// The pair's proposal, at a place of the row.
#[tactic(auto, unfolding(manifold_records::specs::Written::zeros))]
pub fn fill_proposal(stretch: Stretch<'_>, pair: Pair, proposals: &mut [u32], at: usize)
    requires { at + proposal_size ≤ length proposals.old }
    ensures { proposals.new ≡ put proposals.old at (proposal_words ((step_record (lines_of stretch.entry)).proposal pair.collider1 pair.collider2)) }
{
    let mut row = [0u32; PROPOSAL_SIZE];
    row[PROPOSAL_HOOK] = 1;
    read_proposal(stretch, pair, &mut row);
    store_words(proposals, at, &row);
}
