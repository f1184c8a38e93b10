// The proposals of the active contacts, each at its id.
ghost use Rattle.std.specs.Prelude.{◌≡◌, ◌+◌, ◌*◌, ◌<◌, length};
ghost use Rattle.rows.specs.Rows.{put};
ghost use Rattle.layout.specs.Proposal.{proposal_size};
ghost use Rattle.contact_range.specs.Checked.{Checked};
ghost use Rattle.contact_range.specs.Recorded.{capacity_of, listed_at, listed_count};
ghost use Rattle.trace_rules.specs.Play.{proposal_words, proposal_of, proposals_of};
ghost use Rattle.trace_rules.specs.Records.{step_record};
ghost use Rattle.trace_steps.specs.Stretch.{lines_of};

use crate::proposal::{Pair, fill_proposal};
use crate::stretch::Stretch;
use contact_graph::lay_out::clear;
use contact_range::places::{contact_at, id_at};
use layout::contact::CONTACT_COLLIDER2;
use layout::graph::{GRAPH_LIST, GRAPH_LISTED};
use layout::proposal::PROPOSAL_SIZE;
use words::load::load;

// The proposal of the contact at place p of the list.
fn fill_listed(stretch: Stretch<'_>, graph: &[u32], p: usize, proposals: &mut [u32])
    requires { Checked graph.now × (p < listed_count graph.now) × (length proposals.old ≡ capacity_of graph.now * proposal_size) }
    ensures { proposals.new ≡ put proposals.old (listed_at graph.now p * proposal_size) (proposal_words (proposal_of (step_record (lines_of stretch.entry)).proposal graph.now (listed_at graph.now p))) }
{
    let id = id_at(graph, GRAPH_LIST + p);
    let at = contact_at(graph, id);
    let pair = Pair {
        collider1: load(graph, at),
        collider2: load(graph, at + CONTACT_COLLIDER2),
    };
    fill_proposal(stretch, pair, proposals, id.0 as usize * PROPOSAL_SIZE);
}

// Every word of the row: zeros for the ids that are not active.
pub fn fill_proposals(stretch: Stretch<'_>, graph: &[u32], proposals: &mut [u32])
    requires { Checked graph.now × (length proposals.old ≡ capacity_of graph.now * proposal_size) }
    ensures { proposals.new ≡ proposals_of (step_record (lines_of stretch.entry)).proposal graph.now }
{
    clear(proposals);
    let listed = load::<usize>(graph, GRAPH_LISTED);
    for p in 0..listed {
        fill_listed(stretch, graph, p, proposals);
    }
}
