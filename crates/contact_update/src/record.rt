// One contact's words, updated: the twelve rules in their order. From `update_contacts` of avian's narrow_phase/system_param.rs.
ghost use Rattle.std.specs.Prelude.{◌≡◌, length, Some};
ghost use Rattle.rules.specs.Sides.{side_of};
ghost use Rattle.rules.specs.Update.{body_of, renewed, updated_between};
ghost use Rattle.layout.specs.Body.{bodies_length};
ghost use Rattle.layout.specs.Contact.{contact_manifolds};
ghost use Rattle.collider.specs.Recorded.{body_at};
ghost use Rattle.collider.specs.Views.{plain_settings, plain_collider, plain_body_if, plain_side};
ghost use Rattle.manifold_records.specs.Counts.{Counted};
ghost use Rattle.contact_records.specs.StateViews.{cached_of};
ghost use Rattle.proposals.specs.Recorded.{proposal_at, hook_at};
ghost use Rattle.contact_update.specs.Updates.{Ready, WordsReady, BelowLimit, UpdatesAs, SkippedIs, RecordUpdates};
ghost use Rattle.contact_update.specs.Made.{disjoint_update, recycled_update, overlapped};

use crate::recycled::recycle_words;
use crate::renewal::{renew, renew_manifolds, store_renewal};
use collider::body_record::{BodyRecord, load_body};
use collider::collider_record::{ColliderRecord, load_collider};
use collider::overlap::{layers_interact, overlap};
use collider::settings::Settings;
use collider::side::{Side, side_of};
use contact_filtering::filtering::Filtering;
use contact_parameters::pair::OverlappingPair;
use contact_parameters::recycling::recycle;
use contact_parameters::surface::surface_of;
use contact_records::state::{load_cache, load_flags};
use contact_types::contact_manifold::ContactRecyclingCache;
use layout::contact::{
    CONTACT_CACHE, CONTACT_COLLIDER1, CONTACT_COLLIDER2, CONTACT_FLAGS, CONTACT_MANIFOLDS,
    CONTACT_SIZE, CONTACT_SPECULATIVE_DISTANCE, PAIR_DISJOINT_AABB,
};
use words::load::load;
use words::store::store;

// What an update answers: its status bit, whether the pair was recycled, and the reported contact distance.
#[derive(Clone, Copy)]
pub struct Outcome {
    pub bit: bool,
    pub recycled: bool,
    // With the margins; +0 where rule 8 was not reached.
    pub max_contact_distance: f32,
}

// Rule 2: the boxes do not overlap, or the layers do not interact.
#[tactic(auto, unfolding(crate::specs::After::after_words))]
fn update_disjoint(words: &mut [u32; CONTACT_SIZE]) -> Outcome
    ensures { UpdatesAs disjoint_update words.old words.new result }
{
    store(words, PAIR_DISJOINT_AABB, 1);
    store(words, CONTACT_SPECULATIVE_DISTANCE, 0);
    Outcome {
        bit: true,
        recycled: false,
        max_contact_distance: 0.0,
    }
}

// Rule 5.
#[tactic(auto, unfolding(crate::specs::After::after_words, rules::specs::Update::recycled_pair, contact_records::specs::Recorded::pair_at))]
fn update_recycled(
    words: &mut [u32; CONTACT_SIZE],
    a: Side,
    b: Side,
    cache: ContactRecyclingCache,
) -> Outcome
    requires { Counted words.old contact_manifolds }
    ensures { UpdatesAs (recycled_update (plain_side a) (plain_side b) (cached_of cache)) words.old words.new result }
{
    recycle_words(words, a, b, cache);
    Outcome {
        bit: false,
        recycled: true,
        max_contact_distance: 0.0,
    }
}

// Rules 6 to 12.
fn update_full(
    settings: Settings,
    pair: OverlappingPair,
    proposal: &[u32],
    words: &mut [u32; CONTACT_SIZE],
) -> Outcome
    requires { WordsReady proposal.now words.old }
    ensures { UpdatesAs (renewed (plain_settings settings) (hook_at proposal.now 0) (proposal_at proposal.now 0) (plain_collider pair.c1) (plain_collider pair.c2) (plain_side pair.a) (plain_side pair.b)) words.old words.new result }
{
    let flags = load_flags(words, CONTACT_FLAGS);
    let old = load::<u32>(words, CONTACT_MANIFOLDS);
    let given = load::<f32>(words, CONTACT_SPECULATIVE_DISTANCE);
    let surface = surface_of(settings, pair, given);
    let filtering = Filtering {
        step_time: settings.step_time,
        a: pair.a,
        b: pair.b,
        surface,
    };
    let new = renew_manifolds(words, settings, filtering, flags.modify_contacts, proposal);
    let renewal = renew(pair, surface, flags, old, new);
    store_renewal(words, renewal);
    Outcome {
        bit: renewal.bit,
        recycled: false,
        max_contact_distance: renewal.max_contact_distance,
    }
}

// Rules 4 to 12.
fn update_overlapping(
    settings: Settings,
    pair: OverlappingPair,
    proposal: &[u32],
    words: &mut [u32; CONTACT_SIZE],
) -> Outcome
    requires { WordsReady proposal.now words.old }
    ensures { UpdatesAs (overlapped (plain_settings settings) (hook_at proposal.now 0) (proposal_at proposal.now 0) (plain_collider pair.c1) (plain_collider pair.c2) (plain_side pair.a) (plain_side pair.b)) words.old words.new result }
{
    let flags = load_flags(words, CONTACT_FLAGS);
    let cache = load_cache(words, CONTACT_CACHE);
    match recycle(settings, flags.touching, pair.a, pair.b, cache) {
        Some(cached) => update_recycled(words, pair.a, pair.b, cached),
        None => update_full(settings, pair, proposal, words),
    }
}

// The body that a collider names.
fn named_body(bodies: &[u32], named: Option<u32>) -> Option<BodyRecord>
    requires { (length bodies.now ≡ bodies_length) × BelowLimit named }
    ensures { plain_body_if result ≡ body_of (body_at bodies.now) named }
{
    load_body(bodies, named?)
}

// Rule 3: a side's body values.
fn side_at(bodies: &[u32], c: ColliderRecord) -> Side
    requires { (length bodies.now ≡ bodies_length) × BelowLimit (plain_collider c).body }
    ensures { plain_side result ≡ side_of (plain_collider c) (body_of (body_at bodies.now) (plain_collider c).body) }
{
    let named = c.body;
    side_of(c, named_body(bodies, named))
}

// Rules 2 to 12: both colliders are there.
fn update_between(
    settings: Settings,
    c1: ColliderRecord,
    c2: ColliderRecord,
    bodies: &[u32],
    proposal: &[u32],
    words: &mut [u32; CONTACT_SIZE],
) -> Outcome
    requires { BelowLimit (plain_collider c1).body × BelowLimit (plain_collider c2).body × (length bodies.now ≡ bodies_length) × WordsReady proposal.now words.old }
    ensures { UpdatesAs (λ p. updated_between (plain_settings settings) (body_at bodies.now) (hook_at proposal.now 0) (proposal_at proposal.now 0) p (Some (plain_collider c1)) (Some (plain_collider c2))) words.old words.new result }
{
    let given = load::<f32>(words, CONTACT_SPECULATIVE_DISTANCE);
    if !overlap(c1, c2, given) || !layers_interact(c1, c2) {
        return update_disjoint(words);
    }
    let pair = OverlappingPair {
        c1,
        c2,
        a: side_at(bodies, c1),
        b: side_at(bodies, c2),
    };
    update_overlapping(settings, pair, proposal, words)
}

// Rule 1: a collider is absent.
fn skipped() -> Outcome
    ensures { SkippedIs result }
{
    Outcome {
        bit: false,
        recycled: false,
        max_contact_distance: 0.0,
    }
}

// Rule 1, then the others.
fn update_present(
    settings: Settings,
    colliders: &[u32],
    bodies: &[u32],
    proposal: &[u32],
    words: &mut [u32; CONTACT_SIZE],
) -> Outcome
    requires { Ready colliders.now bodies.now proposal.now words.old }
    ensures { RecordUpdates (plain_settings settings) colliders.now bodies.now proposal.now words.old words.new result }
{
    let n1 = load::<u32>(words, CONTACT_COLLIDER1);
    let n2 = load::<u32>(words, CONTACT_COLLIDER2);
    let Some(c1) = load_collider(colliders, n1) else {
        return skipped();
    };
    let Some(c2) = load_collider(colliders, n2) else {
        return skipped();
    };
    update_between(settings, c1, c2, bodies, proposal, words)
}

// Not lent an `UpdateInput`: of the proposals it reads the contact's own alone.
pub fn update_record(
    settings: Settings,
    colliders: &[u32],
    bodies: &[u32],
    proposal: &[u32],
    words: &mut [u32],
) -> Outcome
    requires { Ready colliders.now bodies.now proposal.now words.old }
    ensures { RecordUpdates (plain_settings settings) colliders.now bodies.now proposal.now words.old words.new result }
{
    let Some(own) = words.as_mut_array::<CONTACT_SIZE>() else {
        unreachable!()
    };
    update_present(settings, colliders, bodies, proposal, own)
}
