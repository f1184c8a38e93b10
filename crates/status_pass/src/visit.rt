// One visit of the status pass: what it lists, and what becomes of the contact.
ghost use Rattle.std.specs.Prelude.{◌≡◌, true};
ghost use Rattle.contact_range.specs.Checked.{Checked};
ghost use Rattle.contact_range.specs.Range.{stands};
ghost use Rattle.status_pass.specs.Pass.{settled_graph, visited_graph, VisitReady, VisitDone};
ghost use Rattle.status_pass.specs.Verdicts.{plain_verdict};

use crate::changes::record_change;
use crate::events::record_event;
use crate::settle::settle;
use crate::verdict::{Verdict, verdict_of};
use contact_graph::remove::remove_standing;
use contact_range::places::contact_at;
use contact_types::contact_id::ContactId;
use layout::contact::CONTACT_SIZE;

// How many events and changes are written.
#[derive(Clone, Copy)]
pub struct WrittenCounts {
    pub events: usize,
    pub changes: usize,
}

// The contact's record is lent on, and no other's.
fn settle_own(graph: &mut [u32], id: ContactId, v: Verdict)
    requires { Checked graph.old × (stands graph.old id.0 ≡ true) }
    ensures { graph.new ≡ settled_graph (plain_verdict v) id.0 graph.old }
{
    let at = contact_at(graph, id);
    let end = at + CONTACT_SIZE;
    settle(&mut graph[at..end], v);
}

// A disjoint contact is removed, any other's marks are written.
fn leave(graph: &mut [u32], id: ContactId, v: Verdict)
    requires { Checked graph.old × (stands graph.old id.0 ≡ true) }
    ensures { graph.new ≡ visited_graph (plain_verdict v) id.0 graph.old }
{
    match v {
        Verdict::Vanishes => remove_standing(graph, id),
        _ => settle_own(graph, id, v),
    }
}

pub fn visit(
    graph: &mut [u32],
    events: &mut [u32],
    changes: &mut [u32],
    id: ContactId,
    counts: WrittenCounts,
) -> WrittenCounts
    requires { VisitReady graph.old events.old changes.old id.0 counts.events counts.changes }
    ensures { VisitDone graph.old events.old changes.old id.0 counts.events counts.changes graph.new events.new changes.new result }
{
    let at = contact_at(graph, id);
    let end = at + CONTACT_SIZE;
    let own = &graph[at..end];
    let v = verdict_of(own);
    let e = record_event(events, counts.events, own, id, v);
    let c = record_change(changes, counts.changes, own, id, v);
    leave(graph, id, v);
    WrittenCounts {
        events: e,
        changes: c,
    }
}
