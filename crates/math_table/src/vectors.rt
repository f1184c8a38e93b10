// What is done to vectors: the operands in a line, then the results.
use crate::line::{print_float, print_line, print_vector};
use crate::patterns::{Case, PATTERNS};
use math::bits::{bits_of, float_of};
use math::vec::Vec3;
use std::io;
use std::io::Write;

fn print_sums<W: Write>(out: &mut W, a: Vec3, b: Vec3, k: f32) -> io::Result<()> {
    print_vector(out, "add", a + b)?;
    print_vector(out, "sub", a - b)?;
    print_vector(out, "mul", a * k)?;
    print_vector(out, "neg", -a)
}

fn print_products<W: Write>(out: &mut W, a: Vec3, b: Vec3, k: f32) -> io::Result<()> {
    print_float(out, "dot", a.dot(b))?;
    print_vector(out, "cross", a.cross(b))?;
    print_float(out, "length", a.length())?;
    print_float(out, "distance_squared", a.distance_squared(b))?;
    print_vector(out, "clamp_length_max", a.clamp_length_max(k))?;
    print_vector(out, "reject_from_normalized", a.reject_from_normalized(b))
}

pub fn print_case<W: Write>(out: &mut W, case: Case) -> io::Result<()> {
    let a = case.vector(1);
    let b = case.vector(6);
    let k = case.value(11);
    let words = [
        bits_of(a.x),
        bits_of(a.y),
        bits_of(a.z),
        bits_of(b.x),
        bits_of(b.y),
        bits_of(b.z),
        bits_of(k),
    ];
    print_line(out, "vectors", &words)?;
    print_sums(out, a, b, k)?;
    print_products(out, a, b, k)
}

// The maximum is the length, or its opposite: the vector is kept.
fn print_kept<W: Write>(out: &mut W, x: f32) -> io::Result<()> {
    let r = Vec3::new(x, 0.0, 0.0).clamp_length_max(x);
    print_line(
        out,
        "kept",
        &[bits_of(x), bits_of(r.x), bits_of(r.y), bits_of(r.z)],
    )
}

pub fn print_lengths_kept<W: Write>(out: &mut W) -> io::Result<()> {
    for pattern in PATTERNS {
        print_kept(out, float_of(pattern))?;
    }
    Ok(())
}
