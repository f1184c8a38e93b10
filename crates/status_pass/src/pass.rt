// The status pass: the contacts of a list of ids, one after another.
ghost use Rattle.status_pass.specs.Pass.{RowsReady, PassDone};

use crate::visit::{WrittenCounts, visit};
use contact_types::contact_id::ContactId;

// Answers how many events and changes are written.
pub fn pass(
    graph: &mut [u32],
    events: &mut [u32],
    changes: &mut [u32],
    ids: &[u32],
) -> WrittenCounts
    requires { RowsReady graph.old events.old changes.old ids.now }
    ensures { PassDone graph.old events.old changes.old ids.now graph.new events.new changes.new result }
{
    let mut counts = WrittenCounts {
        events: 0,
        changes: 0,
    };
    for &id in ids {
        counts = visit(graph, events, changes, ContactId(id), counts);
    }
    counts
}
