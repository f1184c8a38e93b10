// Refusal 2 of settings, colliders and bodies: a mark not 0 or 1, a combining rule not 1 to 5, a body number of 128 or more.
// Nothing behind a mark of 0 is tested.
ghost use Rattle.std.specs.Prelude.{◌≡◌, ℕ, Bool, ◌+◌, ◌*◌, ◌≤◌, ◌<◌, List, length};
ghost use Rattle.words.specs.Words.{word_at, where_set};
ghost use Rattle.layout.specs.Body.{bodies_length, body_size};
ghost use Rattle.layout.specs.Collider.{collider_size, colliders_length};
ghost use Rattle.layout.specs.Settings.{settings_length};
ghost use Rattle.collider.specs.Range.{is_rule, coefficient_fits, setting_fits, settings_fit, records_fit, colliders_fit, bodies_fit, body_number_fits, collider_values_fit, body_values_fit};

use crate::body_record::BodyRecord;
use crate::collider_record::ColliderRecord;
use layout::body::{BODY_FRICTION, BODY_MARGIN, BODY_SIZE, BODY_SPECULATIVE_MAXIMUM, BODY_STATIC};
use layout::collider::{
    COLLIDER_BODY, COLLIDER_FRICTION, COLLIDER_MARGIN, COLLIDER_RESTITUTION, COLLIDER_SENSOR,
    COLLIDER_SIZE,
};
use layout::limits::{BODIES, COLLIDERS};
use layout::settings::{
    SETTINGS_FRICTION, SETTINGS_MATCH_CONTACTS, SETTINGS_MATCHING, SETTINGS_RESTITUTION,
};
use words::row::{mark_fits, where_set};

fn rule_fits(words: &[u32], at: usize) -> bool
    requires { at < length words.now }
    ensures { result ≡ is_rule (word_at words.now at) }
{
    let rule = words[at];
    0 < rule && rule <= 5
}

#[tactic(auto, unfolding(crate::specs::Range::body_number_fits))]
fn body_number_fits(words: &[u32], at: usize) -> bool
    requires { at + 2 ≤ length words.now }
    ensures { result ≡ body_number_fits words.now at }
{
    let mark = words[at];
    let number = words[at + 1];
    where_set(mark, number < BODIES)
}

fn coefficient_fits(words: &[u32], at: usize) -> bool
    requires { at + 3 ≤ length words.now }
    ensures { result ≡ coefficient_fits words.now at }
{
    let mark = words[at];
    where_set(mark, rule_fits(words, at + 2))
}

// A setting: a mark behind its presence mark.
fn setting_fits(words: &[u32], at: usize) -> bool
    requires { at + 2 ≤ length words.now }
    ensures { result ≡ setting_fits words.now at }
{
    let mark = words[at];
    where_set(mark, mark_fits(words, at + 1))
}

#[tactic(auto, unfolding(crate::specs::Range::settings_fit))]
pub fn settings_fit(words: &[u32]) -> bool
    requires { length words.now ≡ settings_length }
    ensures { result ≡ settings_fit words.now }
{
    mark_fits(words, SETTINGS_MATCH_CONTACTS)
        && rule_fits(words, SETTINGS_FRICTION + 1)
        && rule_fits(words, SETTINGS_RESTITUTION + 1)
        && setting_fits(words, SETTINGS_MATCHING)
}

// A record that begins with its presence mark.
trait Record {
    ghost SIZE: { ℕ };

    ghost values_fit: { List ℕ → ℕ → Bool };

    const SIZE: usize;

    // What is asked of a record that is present.
    fn values_fit(words: &[u32], at: usize) -> bool
        requires { at + SIZE ≤ length words.now }
        ensures { result ≡ values_fit words.now at };
}

impl Record for ColliderRecord {
    ghost SIZE = { collider_size };

    ghost values_fit = { collider_values_fit };

    const SIZE: usize = COLLIDER_SIZE;

    #[tactic(auto, unfolding(crate::specs::Range::collider_values_fit))]
    fn values_fit(words: &[u32], at: usize) -> bool {
        body_number_fits(words, at + COLLIDER_BODY)
            && coefficient_fits(words, at + COLLIDER_FRICTION)
            && coefficient_fits(words, at + COLLIDER_RESTITUTION)
            && mark_fits(words, at + COLLIDER_MARGIN)
            && mark_fits(words, at + COLLIDER_SENSOR)
    }
}

impl Record for BodyRecord {
    ghost SIZE = { body_size };

    ghost values_fit = { body_values_fit };

    const SIZE: usize = BODY_SIZE;

    #[tactic(auto, unfolding(crate::specs::Range::body_values_fit))]
    fn values_fit(words: &[u32], at: usize) -> bool {
        mark_fits(words, at + BODY_STATIC)
            && coefficient_fits(words, at + BODY_FRICTION)
            && mark_fits(words, at + BODY_MARGIN)
            && mark_fits(words, at + BODY_SPECULATIVE_MAXIMUM)
    }
}

// Record n of those that stand one after another.
fn record_fits<R: Record>(words: &[u32], n: usize) -> bool
    requires { (0 < R.SIZE) × (n * R.SIZE + R.SIZE ≤ length words.now) }
    ensures { result ≡ where_set (word_at words.now (n * R.SIZE)) (R.values_fit words.now (n * R.SIZE)) }
{
    let at = n * R::SIZE;
    let mark = words[at];
    if mark != 1 {
        return mark == 0;
    }
    R::values_fit(words, at)
}

// So many records, one after another.
fn records_fit<R: Record>(words: &[u32], count: usize) -> bool
    requires { (0 < R.SIZE) × (length words.now ≡ count * R.SIZE) }
    ensures { result ≡ records_fit R.values_fit R.SIZE count words.now }
{
    (0..count).all(|n| record_fits::<R>(words, n))
}

#[tactic(auto, unfolding(crate::specs::Range::colliders_fit, crate::specs::Range::collider_fits))]
pub fn colliders_fit(words: &[u32]) -> bool
    requires { length words.now ≡ colliders_length }
    ensures { result ≡ colliders_fit words.now }
{
    records_fit::<ColliderRecord>(words, COLLIDERS as usize)
}

#[tactic(auto, unfolding(crate::specs::Range::bodies_fit, crate::specs::Range::body_fits))]
pub fn bodies_fit(words: &[u32]) -> bool
    requires { length words.now ≡ bodies_length }
    ensures { result ≡ bodies_fit words.now }
{
    records_fit::<BodyRecord>(words, BODIES as usize)
}
