// Refusal 7: workers not 1 to 8, some active pair not listed once among their shares, or anything else listed. Linear in the entries.
ghost use Rattle.std.specs.Prelude.{◌≡◌, ◌&&◌, ◌+◌, ◌≤◌, length};
ghost use Rattle.contact_range.specs.Checked.{Checked};
ghost use Rattle.contact_range.specs.Recorded.{capacity_of};
ghost use Rattle.contact_range.specs.Conditions.{Unmarked};
ghost use Rattle.layout.specs.Shares.{shares_entries, shares_length};
ghost use Rattle.rules.specs.Limits.{most_workers};
ghost use Rattle.shares.specs.Shares.{start_of, total_of, entries_stand, entries_once, shares_fit};

use contact_graph::call::has_contact;
use contact_range::places::id_at;
use data_structures::bit_vec::insert;
use layout::bits::MOST_BLOCKS;
use layout::graph::{GRAPH_CAPACITY, GRAPH_LISTED};
use layout::limits::MOST_WORKERS;
use layout::shares::{SHARES_COUNTS, SHARES_ENTRIES, SHARES_WORKERS};
use words::load::load;

// The contacts of the workers before it.
pub fn start_of(shares: &[u32], worker: usize) -> usize
    requires { (worker ≤ most_workers) × (shares_entries ≤ length shares.now) }
    ensures { result ≡ start_of shares.now worker }
{
    let mut total = 0;
    for w in 0..worker {
        total += load::<usize>(shares, SHARES_COUNTS + w);
    }
    total
}

// Every entry is active, and none stands twice: each is marked, and none is marked already.
fn entries_fit(shares: &[u32], graph: &[u32], total: usize, marks: &mut [u64; MOST_BLOCKS]) -> bool
    requires { Checked graph.now × (total ≡ total_of shares.now) × (shares_entries + total ≤ length shares.now) × Unmarked marks.old }
    ensures { result ≡ (entries_stand shares.now graph.now && entries_once shares.now) }
{
    for k in 0..total {
        let id = id_at(shares, SHARES_ENTRIES + k);
        if !has_contact(graph, id) {
            return false;
        }
        if !insert(marks, id.0 as usize) {
            return false;
        }
    }
    true
}

pub fn shares_fit(shares: &[u32], graph: &[u32]) -> bool
    requires { Checked graph.now × (length shares.now ≡ shares_length (capacity_of graph.now)) }
    ensures { result ≡ shares_fit shares.now graph.now }
{
    let workers = load::<usize>(shares, SHARES_WORKERS);
    if workers == 0 || MOST_WORKERS < workers {
        return false;
    }
    let total = start_of(shares, workers);
    let mut marks = [0u64; MOST_BLOCKS];
    total <= load::<usize>(graph, GRAPH_CAPACITY)
        && entries_fit(shares, graph, total, &mut marks)
        && total == load::<usize>(graph, GRAPH_LISTED)
}
