// A full update of a pair: rules 6 to 12. Its manifolds are made and matched in its words, where they stand: passed by value they would be copied.
ghost use Rattle.std.specs.Prelude.{◌≡◌, cond, ◌&&◌, [], ◌∷◌, ◌++◌, ◌+◌, ◌≤◌, leb, length, Some};
ghost use Rattle.rows.specs.Rows.{put};
ghost use Rattle.rules.specs.Update.{remaining};
ghost use Rattle.collider.specs.Views.{plain_settings, plain_collider, plain_side};
ghost use Rattle.manifold_records.specs.Counts.{Counted};
ghost use Rattle.manifold_records.specs.Recorded.{manifolds_at};
ghost use Rattle.manifold_matching.specs.Matched.{manifolds_from, OldManifolds};
ghost use Rattle.layout.specs.Contact.{contact_flags, contact_manifolds, contact_size};
ghost use Rattle.layout.specs.Proposal.{proposal_size};
ghost use Rattle.rules.specs.Limits.{pair_manifolds};
ghost use Rattle.contact_records.specs.StateViews.{flags_of, cached_of};
ghost use Rattle.contact_records.specs.Written.{flags_words, cache_words};
ghost use Rattle.contact_parameters.specs.Views.{plain_surface};
ghost use Rattle.proposals.specs.Range.{Proposed};
ghost use Rattle.proposals.specs.Recorded.{proposal_at, hook_at};
ghost use Rattle.contact_update.specs.Updates.{ManifoldsRenewed, StateRenewed};

use collider::settings::Settings;
use contact_filtering::filtering::Filtering;
use contact_parameters::pair::OverlappingPair;
use contact_parameters::renewing::{cache_of, count_change, is_enabled, renewed_flags, status_bit};
use contact_parameters::surface::Surface;
use contact_records::state::{ContactPairFlags, store_cache, store_flags, word_of_int};
use contact_types::contact_manifold::ContactRecyclingCache;
use layout::contact::{
    CONTACT_CACHE, CONTACT_COUNT_CHANGE, CONTACT_FIRST_MANIFOLD, CONTACT_FLAGS, CONTACT_MANIFOLDS,
    CONTACT_SIZE, CONTACT_SPECULATIVE_DISTANCE,
};
use layout::manifold::{ALL_MANIFOLDS_SIZE, MANIFOLD_SIZE};
use manifold_matching::matching::{Matching, match_manifolds};
use manifold_records::zeros::store_zeros;
use math::constants::TENTH;
use narrow_phase::manifold::store_remaining;
use words::load::load;
use words::row::load_words;
use words::store::store;

// What an update makes of a pair besides its manifolds, and what it answers.
#[derive(Clone, Copy)]
pub struct Renewal {
    pub flags: ContactPairFlags,
    // The signed count change, as a word.
    pub change: u32,
    pub cache: ContactRecyclingCache,
    pub bit: bool,
    pub max_contact_distance: f32,
}

// How many old manifolds the new ones are matched against: none with matching off, or with more than four new ones.
fn matched_count(settings: Settings, old: u32, new: u32) -> u32
    ensures { result ≡ cond (settings.match_contacts && leb new 4) old 0 }
{
    if settings.match_contacts && new <= 4 {
        old
    } else {
        0
    }
}

// Rules 9 to 11, from a copy of the old manifolds' words: the new ones are made and matched where the old ones stood. How many.
// The filtering is passed by value: behind a reference it is not known that the surface's floats fit, which matching requires.
fn renew_from(
    words: &mut [u32; CONTACT_SIZE],
    olds: &[u32],
    old: u32,
    settings: Settings,
    filtering: Filtering,
    modify: bool,
    proposal: &[u32],
) -> u32
    requires { OldManifolds olds.now old × (length proposal.now ≡ proposal_size) × Proposed proposal.now 0 }
    ensures { ManifoldsRenewed (plain_settings settings) (manifolds_from olds.now old) (remaining filtering.step_time (plain_side filtering.a) (plain_side filtering.b) (plain_surface filtering.surface) modify (hook_at proposal.now 0) (proposal_at proposal.now 0)) words.old words.new result }
{
    let first = CONTACT_FIRST_MANIFOLD;
    let n = store_remaining(&filtering, proposal, modify, words, first);
    let count = n as u32;
    let matched = matched_count(settings, old, count) as usize;
    let rule = Matching {
        by_place: settings.by_place,
        threshold: TENTH * settings.length_unit,
    };
    match_manifolds(words, first, n, olds, matched, rule);
    store(words, CONTACT_MANIFOLDS, count);
    store_zeros(
        words,
        first + n * MANIFOLD_SIZE,
        ALL_MANIFOLDS_SIZE - n * MANIFOLD_SIZE,
    );
    count
}

// The old manifolds are copied first. Most pairs have one at most, and then no more is copied.
fn renew_own(
    words: &mut [u32; CONTACT_SIZE],
    settings: Settings,
    filtering: Filtering,
    modify: bool,
    proposal: &[u32],
) -> u32
    requires { Counted words.old contact_manifolds × (length proposal.now ≡ proposal_size) × Proposed proposal.now 0 }
    ensures { ManifoldsRenewed (plain_settings settings) (manifolds_at words.old contact_manifolds) (remaining filtering.step_time (plain_side filtering.a) (plain_side filtering.b) (plain_surface filtering.surface) modify (hook_at proposal.now 0) (proposal_at proposal.now 0)) words.old words.new result }
{
    let old = load::<u32>(words, CONTACT_MANIFOLDS);
    if old <= 1 {
        let mut one = [0u32; MANIFOLD_SIZE];
        load_words(words, CONTACT_FIRST_MANIFOLD, &mut one);
        return renew_from(words, &one, old, settings, filtering, modify, proposal);
    }
    let mut all = [0u32; ALL_MANIFOLDS_SIZE];
    load_words(words, CONTACT_FIRST_MANIFOLD, &mut all);
    renew_from(words, &all, old, settings, filtering, modify, proposal)
}

pub fn renew_manifolds(
    words: &mut [u32],
    settings: Settings,
    filtering: Filtering,
    modify: bool,
    proposal: &[u32],
) -> u32
    requires { (length words.old ≡ contact_size) × Counted words.old contact_manifolds × (length proposal.now ≡ proposal_size) × Proposed proposal.now 0 }
    ensures { ManifoldsRenewed (plain_settings settings) (manifolds_at words.old contact_manifolds) (remaining filtering.step_time (plain_side filtering.a) (plain_side filtering.b) (plain_surface filtering.surface) modify (hook_at proposal.now 0) (proposal_at proposal.now 0)) words.old words.new result }
{
    let Some(own) = words.as_mut_array::<CONTACT_SIZE>() else {
        unreachable!()
    };
    renew_own(own, settings, filtering, modify, proposal)
}

// Rules 6 and 12, from the surface and the two counts of manifolds.
pub fn renew(
    pair: OverlappingPair,
    surface: Surface,
    flags: ContactPairFlags,
    old: u32,
    new: u32,
) -> Renewal
    requires { (old ≤ pair_manifolds) × (new ≤ pair_manifolds) }
    ensures { StateRenewed (plain_collider pair.c1) (plain_collider pair.c2) (plain_side pair.a) (plain_side pair.b) (plain_surface surface) (flags_of flags) old new result }
{
    let touching = new != 0;
    let enabled = is_enabled(pair);
    let change = count_change(old, new);
    Renewal {
        flags: renewed_flags(flags, pair.a.is_static, pair.b.is_static, enabled, touching),
        change: word_of_int(change),
        cache: cache_of(pair.a, pair.b),
        bit: status_bit(flags, enabled, touching, change),
        max_contact_distance: surface.margins + surface.effective_speculative,
    }
}

// The flags, the count change, and 0 for the speculative distance.
#[tactic(auto, using(crate::specs::StoreLaws::marks_stored))]
fn store_marks(words: &mut [u32; CONTACT_SIZE], flags: ContactPairFlags, change: u32)
    ensures { words.new ≡ put words.old contact_flags (flags_words (flags_of flags) ++ change ∷ 0 ∷ []) }
{
    store_flags(words, CONTACT_FLAGS, flags);
    store(words, CONTACT_COUNT_CHANGE, change);
    store(words, CONTACT_SPECULATIVE_DISTANCE, 0);
}

#[tactic(auto, using(crate::specs::StoreLaws::renewal_stored))]
fn store_own(words: &mut [u32; CONTACT_SIZE], renewal: Renewal)
    ensures { words.new ≡ put words.old contact_flags (flags_words (flags_of renewal.flags) ++ renewal.change ∷ 0 ∷ cache_words (Some (cached_of renewal.cache))) }
{
    store_marks(words, renewal.flags, renewal.change);
    store_cache(words, CONTACT_CACHE, Some(renewal.cache));
}

// A pair's own words before its manifolds.
pub fn store_renewal(words: &mut [u32], renewal: Renewal)
    requires { length words.old ≡ contact_size }
    ensures { words.new ≡ put words.old contact_flags (flags_words (flags_of renewal.flags) ++ renewal.change ∷ 0 ∷ cache_words (Some (cached_of renewal.cache))) }
{
    let Some(own) = words.as_mut_array::<CONTACT_SIZE>() else {
        unreachable!()
    };
    store_own(own, renewal);
}
