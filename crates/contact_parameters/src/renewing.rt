// What a full update makes of a pair besides its new manifolds: cache, flags, status bit. Rules 6 and 12.
ghost use Rattle.std.specs.Prelude.{◌≡◌, pos, ◌-ℤ◌, ◌≤◌};
ghost use Rattle.rules.specs.Limits.{pair_manifolds};
ghost use Rattle.rules.specs.Update.{cache_of, enabled, renewed_flags, status_bit};
ghost use Rattle.collider.specs.Views.{plain_collider, plain_side};
ghost use Rattle.contact_records.specs.StateViews.{flags_of, cached_of};

use crate::pair::OverlappingPair;
use collider::side::Side;
use contact_records::state::ContactPairFlags;
use contact_types::contact_manifold::ContactRecyclingCache;

// The poses that the next recycle test compares with.
pub fn cache_of(a: Side, b: Side) -> ContactRecyclingCache
    ensures { cached_of result ≡ cache_of (plain_side a) (plain_side b) }
{
    let relative = a.pose.relative(b.pose);
    ContactRecyclingCache {
        rotation1: a.pose.rotation,
        rotation2: b.pose.rotation,
        relative_translation: relative.position,
        relative_rotation: relative.rotation,
    }
}

// Both bodies are there, and no collider is a sensor.
#[tactic(auto, unfolding(rules::specs::Update::enabled))]
pub fn is_enabled(pair: OverlappingPair) -> bool
    ensures { result ≡ enabled (plain_collider pair.c1) (plain_collider pair.c2) (plain_side pair.a) (plain_side pair.b) }
{
    (pair.a.present & pair.b.present) & (!pair.c1.sensor & !pair.c2.sensor)
}

// `touching`, `generate_constraints`, `static1` and `static2` are overwritten; the started and stopped marks are set, never cleared; the rest stay.
#[tactic(auto, unfolding(rules::specs::Update::renewed_flags))]
pub fn renewed_flags(
    flags: ContactPairFlags,
    static1: bool,
    static2: bool,
    enabled: bool,
    touching: bool,
) -> ContactPairFlags
    ensures { flags_of result ≡ renewed_flags (flags_of flags) static1 static2 enabled touching }
{
    ContactPairFlags {
        touching,
        disjoint_aabb: flags.disjoint_aabb,
        started_touching: flags.started_touching | (touching & !flags.touching),
        stopped_touching: flags.stopped_touching | (!touching & flags.touching),
        generate_constraints: enabled,
        started_generating_constraints: flags.started_generating_constraints
            | (enabled & !flags.generate_constraints),
        static1,
        static2,
        modify_contacts: flags.modify_contacts,
    }
}

// New count minus old: negative when manifolds vanish.
pub fn count_change(old: u32, new: u32) -> i32
    requires { (old ≤ pair_manifolds) × (new ≤ pair_manifolds) }
    ensures { result ≡ pos new -ℤ pos old }
{
    new as i32 - old as i32
}

// A start of generating, a start or stop of touching, or a count change other than 0.
#[tactic(auto, using(crate::specs::ChangeLaws::zero_word), unfolding(rules::specs::Update::status_bit))]
pub fn status_bit(flags: ContactPairFlags, enabled: bool, touching: bool, change: i32) -> bool
    ensures { result ≡ status_bit (flags_of flags) enabled touching change }
{
    (enabled & !flags.generate_constraints)
        | ((touching & !flags.touching) | ((!touching & flags.touching) | (change != 0)))
}
