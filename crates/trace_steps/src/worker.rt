// The shares of a step with one worker, which lists the active contacts in the list's order.
ghost use Rattle.std.specs.Prelude.{◌≡◌, length};
ghost use Rattle.rows.specs.Rows.{put};
ghost use Rattle.layout.specs.Shares.{shares_entries, shares_length};
ghost use Rattle.contact_range.specs.Checked.{Checked};
ghost use Rattle.contact_range.specs.Recorded.{capacity_of};
ghost use Rattle.update_pass.specs.Shared.{active_of};
ghost use Rattle.trace_rules.specs.Play.{shares_of};

use contact_graph::lay_out::clear;
use layout::graph::{GRAPH_LIST, GRAPH_LISTED};
use layout::shares::{SHARES_COUNTS, SHARES_ENTRIES, SHARES_WORKERS};
use words::load::load;

// The worker's contacts, word by word: a copy of a length known only at run time would be a call of memmove, which a caller in C would have to bring.
#[tactic(auto, using(crate::specs::ActiveLaws::list_places))]
fn list_active(graph: &[u32], shares: &mut [u32])
    requires { Checked graph.now × (length shares.old ≡ shares_length (capacity_of graph.now)) }
    ensures { shares.new ≡ put shares.old shares_entries (active_of graph.now) }
{
    let listed = load::<usize>(graph, GRAPH_LISTED);
    for p in 0..listed {
        shares[SHARES_ENTRIES + p] = graph[GRAPH_LIST + p];
    }
}

// Every word of the row.
#[tactic(auto, using(crate::specs::ActiveLaws::shares_filled))]
pub fn fill_shares(graph: &[u32], shares: &mut [u32])
    requires { Checked graph.now × (length shares.old ≡ shares_length (capacity_of graph.now)) }
    ensures { shares.new ≡ shares_of graph.now }
{
    clear(shares);
    shares[SHARES_WORKERS] = 1;
    shares[SHARES_COUNTS] = load::<u32>(graph, GRAPH_LISTED);
    list_active(graph, shares);
}
