// Matching of a new manifold with as many old ones as a pair has, by number or by place: the impulses of each new point. Single cases
// have one old manifold.
// The loops are the table's own: what is tested is `matches`, and the order in which the rule uses it.
ghost use Rattle.std.specs.Prelude.{◌≤◌};
ghost use Rattle.rules.specs.Limits.{stored_points};

use crate::draws::{Kind, draw, number, vector};
use case_draws::draws::{pick, slot};
use case_draws::manifolds::{feature_word, few_points, grid};
use case_draws::numbers::MANIFOLDS;
use contact_types::contact_point::ContactPoint;
use contact_types::feature_id::PackedFeatureId;
use contact_types::matching::matches;
use layout::limits::STORED_POINTS;
use math::bits::{bits_of, float_of};
use math::vec::{Vec2, Vec3};
use std::io;
use std::io::Write;

// 0.1, -0.1, 0, NaN, 1e10, 0.5, the float after 0.1, infinite.
const THRESHOLDS: [u32; 12] = [
    0x3dcc_cccd,
    0x3dcc_cccd,
    0x3dcc_cccd,
    0x3dcc_cccd,
    0x3dcc_cccd,
    0xbdcc_cccd,
    0x0000_0000,
    0x7fc0_0000,
    0x5015_02f9,
    0x3f00_0000,
    0x3dcc_ccce,
    0x7f80_0000,
];

// A manifold's points: the first `count` of the list.
#[derive(Clone, Copy)]
struct Points {
    list: [ContactPoint; STORED_POINTS],
    count: usize,
    ghost within: { count ≤ stored_points },
}

impl Points {
    fn as_slice(&self) -> &[ContactPoint] {
        &self.list[..self.count]
    }
}

fn threshold(key: u32) -> f32 {
    float_of(pick(&THRESHOLDS, draw(key, 3)))
}

fn grid_spot(key: u32) -> Vec3 {
    Vec3 {
        x: float_of(grid(draw(key, 1), 0)),
        y: float_of(grid(draw(key, 2), 1)),
        z: float_of(grid(draw(key, 3), 2)),
    }
}

// By the case's choice far from one another, or some with awkward floats, else on the grid.
fn spot(owner: u32, slot: u32, choice: u32) -> Vec3 {
    let key = draw(owner, slot);
    match choice % 4 {
        1 => vector(key, Kind::Common),
        2 if draw(key, 4) % 4 == 0 => vector(key, Kind::AtTimesAwkward),
        _ => grid_spot(key),
    }
}

fn feature(owner: u32, slot: u32, choice: u32) -> PackedFeatureId {
    PackedFeatureId(feature_word(choice, draw(owner, slot)))
}

fn tangent(key: u32) -> Vec2 {
    Vec2 {
        x: number(key, 4, Kind::AtTimesAwkward),
        y: number(key, 5, Kind::AtTimesAwkward),
    }
}

// The impulses that were applied are not those that matching hands on.
fn contact(owner: u32, slot: u32, features: u32, anchors: u32) -> ContactPoint {
    let key = draw(owner, slot);
    let mut p = ContactPoint::new(
        spot(key, 1, anchors),
        spot(key, 2, anchors),
        Vec3::ZERO,
        1.0,
    );
    p.normal_impulse = 9.0;
    p.warm_start_normal_impulse = number(key, 3, Kind::AtTimesAwkward);
    p.warm_start_tangent_impulse = tangent(key);
    p.with_feature_ids(feature(key, 6, features), feature(key, 7, features))
}

// All places are filled. The choices of features and anchors are the case's.
fn manifold(case: u32, slot: u32) -> Points {
    let features = draw(case, 1);
    let anchors = draw(case, 2);
    let key = draw(case, slot);
    Points {
        list: [
            contact(key, 1, features, anchors),
            contact(key, 2, features, anchors),
            contact(key, 3, features, anchors),
            contact(key, 4, features, anchors),
        ],
        count: few_points(draw(key, 5)) as usize,
    }
}

// The first old point that matches gives its two warm start impulses.
fn match_point(
    new: ContactPoint,
    olds: &[ContactPoint],
    by_place: bool,
    threshold_squared: f32,
) -> ContactPoint {
    let matching = |old: &&ContactPoint| matches(new, **old, by_place, threshold_squared);
    match olds.iter().find(matching) {
        Some(old) => ContactPoint {
            warm_start_normal_impulse: old.warm_start_normal_impulse,
            warm_start_tangent_impulse: old.warm_start_tangent_impulse,
            ..new
        },
        None => new,
    }
}

// Each point, against the points of the case's old manifold of a number.
fn match_contacts(news: &mut Points, case: u32, slot: u32, by_place: bool) {
    let distance = threshold(case);
    let olds = manifold(case, slot);
    for new in news.list.iter_mut().take(news.count) {
        *new = match_point(*new, olds.as_slice(), by_place, distance * distance);
    }
}

const MANIFOLD_COUNTS: u32 = MANIFOLDS + 1;

// Against the case's first old manifolds in turn: a later one overrides.
fn match_all(news: &mut Points, case: u32, count: u32, by_place: bool) {
    for i in 0..count {
        match_contacts(news, case, slot(10, i), by_place);
    }
}

fn print_line<W: Write>(out: &mut W, name: &str, c: u32, news: &Points) -> io::Result<()> {
    write!(out, "{name}\t{c:08X}")?;
    for p in news.as_slice() {
        let normal = bits_of(p.warm_start_normal_impulse);
        let x = bits_of(p.warm_start_tangent_impulse.x);
        let y = bits_of(p.warm_start_tangent_impulse.y);
        write!(out, "\t{normal:08X}\t{x:08X}\t{y:08X}")?;
    }
    writeln!(out)
}

// Those with as many old manifolds as a pair has, then those with one.
pub fn print_cases<W: Write>(out: &mut W, by_place: bool) -> io::Result<()> {
    let (all, one) = if by_place {
        ("match_place", "match_one_place")
    } else {
        ("match", "match_one")
    };
    for c in 0..1300 {
        let case = draw(c, 1);
        let (name, count) = if c < 1000 {
            (all, draw(case, 5) % MANIFOLD_COUNTS)
        } else {
            (one, 1)
        };
        let mut news = manifold(case, 4);
        match_all(&mut news, case, count, by_place);
        print_line(out, name, c, &news)?;
    }
    Ok(())
}
