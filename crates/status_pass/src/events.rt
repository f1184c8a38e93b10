// The contact events that a visit writes, eight words each: kind, id, colliders, bodies.
ghost use Rattle.std.specs.Prelude.{◌≡◌, ◌+◌, ◌*◌, ◌≤◌, length};
ghost use Rattle.rules.specs.Status.{events_for};
ghost use Rattle.layout.specs.Contact.{contact_size};
ghost use Rattle.layout.specs.Event.{event_size};
ghost use Rattle.contact_records.specs.Recorded.{names_at, pair_at};
ghost use Rattle.status_pass.specs.EventsAndChanges.{event_words};
ghost use Rattle.status_pass.specs.Verdicts.{plain_verdict};
ghost use Rattle.status_pass.specs.Listed.{event_by, EventIs, EventsWritten};

use crate::verdict::Verdict;
use contact_records::state::optional_words;
use contact_types::contact_id::ContactId;
use layout::contact::{
    CONTACT_BODY1, CONTACT_BODY2, CONTACT_COLLIDER1, CONTACT_COLLIDER2, CONTACT_SIZE,
    EDGE_CONTACT_EVENTS, EDGE_TOUCHING,
};
use layout::event::EVENT_SIZE;
use words::load::load;
use words::row::append;

// Each by its number in an event's words.
#[derive(Clone, Copy, PartialEq, Eq, Debug)]
pub enum EventKind {
    Started = 0,
    Ended = 1,
}

// An event is written where the edge has CONTACT_EVENTS; of a contact that vanishes, where it has TOUCHING too.
fn event_of(words: &[u32; CONTACT_SIZE], v: Verdict) -> Option<EventKind>
    ensures { EventIs words.now v result }
{
    let touching = load::<bool>(words, EDGE_TOUCHING);
    let events = load::<bool>(words, EDGE_CONTACT_EVENTS);
    match v {
        Verdict::Vanishes => (touching & events).then_some(EventKind::Ended),
        Verdict::Starts => events.then_some(EventKind::Started),
        Verdict::Stops => events.then_some(EventKind::Ended),
        Verdict::Generates | Verdict::Recounts | Verdict::Persists => None,
    }
}

#[tactic(auto, using(crate::specs::ListedLaws::event_stored))]
fn event_words(words: &[u32; CONTACT_SIZE], id: ContactId, kind: EventKind) -> [u32; EVENT_SIZE]
    ensures { result ≡ event_words (event_by kind (names_at words.now 0 id.0)) }
{
    let [has_body1, body1] = optional_words(load(words, CONTACT_BODY1));
    let [has_body2, body2] = optional_words(load(words, CONTACT_BODY2));
    [
        kind as u32,
        id.0,
        load(words, CONTACT_COLLIDER1),
        load(words, CONTACT_COLLIDER2),
        has_body1,
        body1,
        has_body2,
        body2,
    ]
}

// n events are written already. Answers how many are then.
pub fn record_event(events: &mut [u32], n: usize, words: &[u32], id: ContactId, v: Verdict) -> usize
    requires { (length words.now ≡ contact_size) × (n * event_size + event_size ≤ length events.old) }
    ensures { EventsWritten events.old n (events_for (plain_verdict v) (pair_at words.now 0 id.0)) events.new result }
{
    let own = words.as_array().unwrap();
    let Some(kind) = event_of(own, v) else {
        return n;
    };
    append(events, n, event_words(own, id, kind))
}
