// A pair's own words besides its manifolds: nine marks, the count change, and the recycling cache.
ghost use Rattle.std.specs.Prelude.{◌≡◌, ◌+◌, ◌≤◌, length, Some};
ghost use Rattle.rows.specs.Rows.{put};
ghost use Rattle.layout.specs.Contact.{cache_size, flags_size};
ghost use Rattle.contact_records.specs.Recorded.{flags_at, cache_at};
ghost use Rattle.contact_records.specs.StateViews.{recorded_flags, flags_of, cached_of, cache_of};
ghost use Rattle.contact_records.specs.Written.{optional_words, int_word, flags_words, cache_words};

use contact_types::contact_manifold::ContactRecyclingCache;
use layout::contact::{CACHE_SIZE, FLAGS_SIZE};
use manifold_records::zeros::store_zeros;
use math::bits::bits_of;
use words::load::{FromRow, load, load_present};
use words::row::{mark_word, store_words};

// The Rust's flags, a mark for each.
#[derive(Clone, Copy)]
pub struct ContactPairFlags {
    pub touching: bool,
    pub disjoint_aabb: bool,
    pub started_touching: bool,
    pub stopped_touching: bool,
    pub generate_constraints: bool,
    pub started_generating_constraints: bool,
    pub static1: bool,
    pub static2: bool,
    pub modify_contacts: bool,
}

impl FromRow for ContactPairFlags {
    ghost size = { flags_size };

    ghost at = { recorded_flags };

    #[tactic(auto, unfolding(crate::specs::StateViews::recorded_flags))]
    fn from_row(row: &[u32], from: usize) -> ContactPairFlags {
        ContactPairFlags {
            touching: load(row, from),
            disjoint_aabb: load(row, from + 1),
            started_touching: load(row, from + 2),
            stopped_touching: load(row, from + 3),
            generate_constraints: load(row, from + 4),
            started_generating_constraints: load(row, from + 5),
            static1: load(row, from + 6),
            static2: load(row, from + 7),
            modify_contacts: load(row, from + 8),
        }
    }
}

// Seen as the rules' flags.
#[tactic(auto, using(crate::specs::MadeLaws::flags_seen))]
pub fn load_flags(g: &[u32], at: usize) -> ContactPairFlags
    requires { at + flags_size ≤ length g.now }
    ensures { flags_of result ≡ flags_at g.now at }
{
    load(g, at)
}

#[tactic(auto, unfolding(crate::specs::Written::flags_words))]
fn flags_words(f: ContactPairFlags) -> [u32; FLAGS_SIZE]
    ensures { result ≡ flags_words (flags_of f) }
{
    [
        mark_word(f.touching),
        mark_word(f.disjoint_aabb),
        mark_word(f.started_touching),
        mark_word(f.stopped_touching),
        mark_word(f.generate_constraints),
        mark_word(f.started_generating_constraints),
        mark_word(f.static1),
        mark_word(f.static2),
        mark_word(f.modify_contacts),
    ]
}

pub fn store_flags(g: &mut [u32], at: usize, f: ContactPairFlags)
    requires { at + flags_size ≤ length g.old }
    ensures { g.new ≡ put g.old at (flags_words (flags_of f)) }
{
    let w = flags_words(f);
    store_words(g, at, &w);
}

// An optional number's mark, and the number, 0 where there is none.
#[tactic(auto, unfolding(crate::specs::Written::optional_words))]
pub fn optional_words(o: Option<u32>) -> [u32; 2]
    ensures { result ≡ optional_words o }
{
    match o {
        Some(n) => [1, n],
        None => [0, 0],
    }
}

// A signed number as a word, in two's complement.
pub fn word_of_int(i: i32) -> u32
    ensures { result ≡ int_word i }
{
    i.cast_unsigned()
}

// Seen as the rules' cache.
#[tactic(auto, using(crate::specs::MadeLaws::cache_present))]
pub fn load_cache(g: &[u32], at: usize) -> Option<ContactRecyclingCache>
    requires { at + cache_size ≤ length g.now }
    ensures { cache_of result ≡ cache_at g.now at }
{
    load_present(g, at)
}

// One array, and so one store and one law, as `point_words`.
#[tactic(auto, unfolding(crate::specs::Written::cache_words))]
fn cached_words(c: ContactRecyclingCache) -> [u32; CACHE_SIZE]
    ensures { result ≡ cache_words (Some (cached_of c)) }
{
    let a = c.rotation1;
    let b = c.rotation2;
    let t = c.relative_translation;
    let q = c.relative_rotation;
    [
        1,
        bits_of(a.x),
        bits_of(a.y),
        bits_of(a.z),
        bits_of(a.w),
        bits_of(b.x),
        bits_of(b.y),
        bits_of(b.z),
        bits_of(b.w),
        bits_of(t.x),
        bits_of(t.y),
        bits_of(t.z),
        bits_of(q.x),
        bits_of(q.y),
        bits_of(q.z),
        bits_of(q.w),
    ]
}

#[tactic(auto, unfolding(crate::specs::Written::cache_words))]
pub fn store_cache(g: &mut [u32], at: usize, c: Option<ContactRecyclingCache>)
    requires { at + cache_size ≤ length g.old }
    ensures { g.new ≡ put g.old at (cache_words (cache_of c)) }
{
    match c {
        Some(poses) => {
            let w = cached_words(poses);
            store_words(g, at, &w);
        }
        None => store_zeros(g, at, CACHE_SIZE),
    }
}
