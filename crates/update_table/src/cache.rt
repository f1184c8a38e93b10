// A case's cache: of the two bodies as they are, or a little moved.
ghost use Rattle.std.specs.Prelude.{◌<◌};

use crate::record::swapped;
use case_draws::bodies::rotation;
use case_draws::draws::{Floats, draw, float, pick, slot};
use case_draws::numbers::{
    CACHE_RELATIVE_ROTATION, CACHE_RELATIVE_TRANSLATION, CACHE_ROTATION1, CACHE_ROTATION2,
    CACHED_SIZE, CONTACT_CACHED,
};
use case_draws::places::{fill, word};
use layout::body::{BODIES_LENGTH, BODY_POSITION, BODY_PRESENT, BODY_SIZE};
use layout::collider::{COLLIDER_BODY, COLLIDER_SIZE, COLLIDERS_LENGTH};
use math::bits::{bits_of, float_of};
use math::pose::Pose;
use words::load::load;

// 0.001, -0.002, 0.004, 0.01, 0.04, 0.1, 0.5, NaN.
const NUDGES: [u32; 8] = [
    0x3a83_126f,
    0xbb03_126f,
    0x3b83_126f,
    0x3c23_d70a,
    0x3d23_d70a,
    0x3dcc_cccd,
    0x3f00_0000,
    0x7fc0_0000,
];

// 0.005, 0.01, -0.02, 0.04, 0.08, 0.15, 0.3, 0.5.
const TURNS: [u32; 8] = [
    0x3ba3_d70a,
    0x3c23_d70a,
    0xbca3_d70a,
    0x3d23_d70a,
    0x3da3_d70a,
    0x3e19_999a,
    0x3e99_999a,
    0x3f00_0000,
];

// That of collider n's own body; an absent one is at the origin.
fn pose(colliders: &[u32; COLLIDERS_LENGTH], bodies: &[u32; BODIES_LENGTH], n: usize) -> Pose
    requires { n < 2 }
{
    let collider = n * COLLIDER_SIZE;
    let body = n * BODY_SIZE;
    if colliders[collider + COLLIDER_BODY] == 0 || bodies[body + BODY_PRESENT] == 0 {
        return Pose::IDENTITY;
    }
    load::<Pose>(bodies, body + BODY_POSITION)
}

// The cache behind its mark: its words, where the second rotation, the translation and the rotation between them begin.
const LENGTH: usize = CACHED_SIZE as usize;

const ROTATION2: u32 = CACHE_ROTATION2 - CACHE_ROTATION1;

const RELATIVE_TRANSLATION: u32 = CACHE_RELATIVE_TRANSLATION - CACHE_ROTATION1;

const RELATIVE_ROTATION: u32 = CACHE_RELATIVE_ROTATION - CACHE_ROTATION1;

fn cache_of(a: Pose, b: Pose) -> [u32; LENGTH] {
    let p = a.rotation;
    let q = b.rotation;
    let between = a.relative(b);
    let t = between.position;
    let r = between.rotation;
    [
        bits_of(p.x),
        bits_of(p.y),
        bits_of(p.z),
        bits_of(p.w),
        bits_of(q.x),
        bits_of(q.y),
        bits_of(q.z),
        bits_of(q.w),
        bits_of(t.x),
        bits_of(t.y),
        bits_of(t.z),
        bits_of(r.x),
        bits_of(r.y),
        bits_of(r.z),
        bits_of(r.w),
    ]
}

// One in four parts of the translation is moved, and one in six of the rotation.
fn nudge(owner: u32, j: u32) -> u32 {
    let d = draw(owner, slot(80, j));
    let (n, nudges) = if j < RELATIVE_ROTATION {
        (4, NUDGES)
    } else {
        (6, TURNS)
    };
    if d % n == 0 { pick(&nudges, d / n) } else { 0 }
}

fn moved(owner: u32, j: u32, w: u32) -> u32 {
    bits_of(float_of(w) + float_of(nudge(owner, j)))
}

// One in sixteen of the bodies' rotations is another.
fn turned(owner: u32, j: u32, w: u32) -> u32 {
    if draw(owner, slot(80, j / ROTATION2)) % 16 == 0 {
        rotation(owner, slot(82, j / ROTATION2), j % ROTATION2)
    } else {
        w
    }
}

fn cache_word(case: u32, j: u32, w: u32) -> u32 {
    let owner = draw(case, 40);
    if draw(owner, 79) % 16 == 0 {
        return float(owner, slot(80, j), Floats::Awkward);
    }
    if j < RELATIVE_TRANSLATION {
        turned(owner, j, w)
    } else {
        moved(owner, j, w)
    }
}

pub fn fill_cache(
    colliders: &[u32; COLLIDERS_LENGTH],
    bodies: &[u32; BODIES_LENGTH],
    record: &mut [u32],
    case: u32,
) {
    let a = pose(colliders, bodies, 0);
    let b = pose(colliders, bodies, 1);
    let cache = if swapped(draw(case, 40)) {
        cache_of(b, a)
    } else {
        cache_of(a, b)
    };
    fill(record, CONTACT_CACHED, CACHED_SIZE, |j| {
        cache_word(case, j, word(&cache, j))
    });
}
