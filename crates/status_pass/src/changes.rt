// The constraint changes that a visit writes, five words each: kind, id, bodies, change of the count.
ghost use Rattle.std.specs.Prelude.{◌≡◌, ◌+◌, ◌*◌, ◌≤◌, length};
ghost use Rattle.rules.specs.Status.{changes_for};
ghost use Rattle.layout.specs.Contact.{contact_size};
ghost use Rattle.layout.specs.Change.{change_size};
ghost use Rattle.contact_records.specs.Recorded.{pair_at};
ghost use Rattle.status_pass.specs.EventsAndChanges.{change_words};
ghost use Rattle.status_pass.specs.Verdicts.{plain_verdict};
ghost use Rattle.status_pass.specs.Listed.{change_by, ChangeIs, ChangesWritten};

use crate::verdict::Verdict;
use contact_types::contact_id::ContactId;
use layout::change::CHANGE_SIZE;
use layout::contact::{
    CONTACT_BODY1, CONTACT_BODY1_NUMBER, CONTACT_BODY2, CONTACT_BODY2_NUMBER, CONTACT_COUNT_CHANGE,
    CONTACT_SIZE, PAIR_GENERATE_CONSTRAINTS,
};
use words::load::load;
use words::row::append;

// As in avian's system_param.rs, without what each carries; each by its number in a change's words.
#[derive(Clone, Copy, PartialEq, Eq, Debug)]
pub enum ContactStatusChange {
    StartedGeneratingConstraints = 0,
    StoppedGeneratingConstraints = 1,
    ManifoldCountChanged = 2,
}

// A stop and a count change name both bodies, and are written where there are both.
fn change_of(words: &[u32; CONTACT_SIZE], v: Verdict) -> Option<ContactStatusChange>
    ensures { ChangeIs words.now v result }
{
    let generating = load::<bool>(words, PAIR_GENERATE_CONSTRAINTS);
    let both = load::<bool>(words, CONTACT_BODY1) & load::<bool>(words, CONTACT_BODY2);
    match v {
        Verdict::Vanishes | Verdict::Stops => {
            (generating & both).then_some(ContactStatusChange::StoppedGeneratingConstraints)
        }
        Verdict::Starts => {
            generating.then_some(ContactStatusChange::StartedGeneratingConstraints)
        }
        Verdict::Generates => Some(ContactStatusChange::StartedGeneratingConstraints),
        Verdict::Recounts => both.then_some(ContactStatusChange::ManifoldCountChanged),
        Verdict::Persists => None,
    }
}

#[tactic(auto, using(crate::specs::ListedLaws::count_stored), unfolding(crate::specs::EventsAndChanges::change_words))]
fn change_words(
    words: &[u32; CONTACT_SIZE],
    id: ContactId,
    kind: ContactStatusChange,
) -> [u32; CHANGE_SIZE]
    ensures { result ≡ change_words (change_by kind words.now id.0) }
{
    let body1 = load(words, CONTACT_BODY1_NUMBER);
    let body2 = load(words, CONTACT_BODY2_NUMBER);
    match kind {
        ContactStatusChange::StartedGeneratingConstraints => [kind as u32, id.0, 0, 0, 0],
        ContactStatusChange::StoppedGeneratingConstraints => [kind as u32, id.0, body1, body2, 0],
        ContactStatusChange::ManifoldCountChanged => [
            kind as u32,
            id.0,
            body1,
            body2,
            load(words, CONTACT_COUNT_CHANGE),
        ],
    }
}

// n changes are written already. Answers how many are then.
pub fn record_change(
    changes: &mut [u32],
    n: usize,
    words: &[u32],
    id: ContactId,
    v: Verdict,
) -> usize
    requires { (length words.now ≡ contact_size) × (n * change_size + change_size ≤ length changes.old) }
    ensures { ChangesWritten changes.old n (changes_for (plain_verdict v) (pair_at words.now 0 id.0)) changes.new result }
{
    let own = words.as_array().unwrap();
    let Some(kind) = change_of(own, v) else {
        return n;
    };
    append(changes, n, change_words(own, id, kind))
}
