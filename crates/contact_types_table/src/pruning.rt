// Pruning of more points than are stored: the numbers of those that stay. Every third case goes through the call `prune`.
ghost use Rattle.std.specs.Prelude.{◌≤◌};

use crate::draws::{Kind, draw, number, vector};
use case_draws::draws::{past, pick, slot};
use case_draws::manifolds::many_points;
use contact_types::prune::prune;
use contact_types::pruning::{KeptPoints, PrunePoint, prune_points};
use contact_types::refusal::Refusal;
use layout::limits::PROPOSED_POINTS;
use layout::prune::{PRUNE_POINT_SIZE, PRUNE_POINTS_LENGTH};
use math::bits::bits_of;
use math::vec::Vec3;
use std::io;
use std::io::Write;

// How the points lie.
#[derive(Clone, Copy, Debug, PartialEq, Eq)]
enum Shape {
    Spread,
    Plane,
    Line,
    // Copies of one point, of three, of four.
    OneCopied,
    ThreeCopied,
    FourCopied,
}

// And the kind of their floats: the cases take these in turn.
const SHAPES: [(Shape, Kind); 10] = [
    (Shape::Spread, Kind::Common),
    (Shape::Plane, Kind::Common),
    (Shape::Spread, Kind::Coarse),
    (Shape::Line, Kind::Common),
    (Shape::Spread, Kind::AtTimesAwkward),
    (Shape::OneCopied, Kind::AtTimesAwkward),
    (Shape::ThreeCopied, Kind::Common),
    (Shape::FourCopied, Kind::Coarse),
    (Shape::Spread, Kind::Awkward),
    (Shape::Plane, Kind::Coarse),
];

fn anchor(key: u32, shape: Shape, kind: Kind) -> Vec3 {
    let v = vector(key, kind);
    match shape {
        Shape::Plane => Vec3::new(v.x, v.y, 0.0),
        Shape::Line => Vec3::new(v.x, v.x * 2.0, v.x * -0.5),
        _ => v,
    }
}

// The number of the point that the k-th copies.
fn copied(shape: Shape, k: u32) -> u32
    ensures { result ≤ k }
{
    match shape {
        Shape::OneCopied => 0,
        Shape::ThreeCopied => k % 3,
        Shape::FourCopied => k % 4,
        _ => k,
    }
}

const Z: Vec3 = Vec3 {
    x: 0.0,
    y: 0.0,
    z: 1.0,
};

// Units and zero.
const AXES: [Vec3; 7] = [
    Vec3 {
        x: 1.0,
        y: 0.0,
        z: 0.0,
    },
    Vec3 {
        x: 0.0,
        y: -1.0,
        z: 0.0,
    },
    Vec3 {
        x: 0.6,
        y: 0.0,
        z: 0.8,
    },
    Vec3::ZERO,
    Z,
    Z,
    Z,
];

// One of the axes; or not of unit length, some with awkward floats.
fn normal(owner: u32, slot: u32) -> Vec3 {
    let key = draw(owner, slot);
    let k = draw(key, 4) % 12;
    match Kind::ALL.get(k as usize) {
        Some(&kind) => vector(key, kind),
        None => pick(&AXES, past(k, 5)),
    }
}

// All places are filled. The penetrations' floats are of another kind.
fn points(owner: u32, shape: (Shape, Kind), kind: Kind) -> [PrunePoint; PROPOSED_POINTS] {
    let none = PrunePoint {
        anchor1: Vec3::ZERO,
        penetration: 0.0,
    };
    let mut ps = [none; PROPOSED_POINTS];
    for (k, p) in ps.iter_mut().enumerate() {
        let key = draw(owner, slot(100, copied(shape.0, k as u32)));
        p.anchor1 = anchor(key, shape.0, shape.1);
        p.penetration = number(key, 4, kind);
    }
    ps
}

// The words of the points, one after the other.
fn words(ps: &[PrunePoint; PROPOSED_POINTS]) -> [u32; PRUNE_POINTS_LENGTH] {
    let mut ws = [0u32; PRUNE_POINTS_LENGTH];
    for (words, p) in ws.chunks_exact_mut(PRUNE_POINT_SIZE).zip(ps) {
        words.copy_from_slice(&[
            bits_of(p.anchor1.x),
            bits_of(p.anchor1.y),
            bits_of(p.anchor1.z),
            bits_of(p.penetration),
        ]);
    }
    ws
}

fn print_kept<W: Write>(out: &mut W, kept: KeptPoints) -> io::Result<()> {
    let numbers = [kept.first, kept.second, kept.third, kept.fourth];
    for number in numbers.iter().take(kept.count as usize) {
        write!(out, "\t{number:08X}")?;
    }
    Ok(())
}

fn print_pruned<W: Write>(out: &mut W, answer: Result<KeptPoints, Refusal>) -> io::Result<()> {
    match answer {
        Ok(kept) => print_kept(out, kept),
        Err(refusal) => write!(out, "\t{:08X}", refusal.number()),
    }
}

pub fn print_cases<W: Write>(out: &mut W) -> io::Result<()> {
    for c in 0..1000 {
        let key = draw(c, 0);
        let kind = pick(&Kind::ALL, draw(key, 3));
        let ps = points(key, pick(&SHAPES, c), kind);
        let count = many_points(draw(key, 1));
        let normal = normal(key, 2);
        let answer = if c % 3 == 0 {
            prune(normal, &words(&ps), count)
        } else {
            Ok(prune_points(&ps[..count as usize], normal))
        };
        write!(out, "prune\t{c:08X}")?;
        print_pruned(out, answer)?;
        writeln!(out)?;
    }
    Ok(())
}
