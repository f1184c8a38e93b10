// What is done to quaternions, matrices and poses: the operands in a line, then the results.
use crate::line::{print_float, print_quat, print_vector, write_quat, write_vector};
use crate::patterns::Case;
use math::mat::Mat3;
use math::pose::Pose;
use math::quat::Quat;
use math::vec::Vec3;
use std::io;
use std::io::Write;

fn print_rotations<W: Write>(out: &mut W, a: Quat, b: Quat, v: Vec3) -> io::Result<()> {
    print_float(out, "dot4", a.dot(b))?;
    print_quat(out, "mul_quat", a.mul_quat(b))?;
    print_quat(out, "inverse", a.inverse())?;
    print_vector(out, "mul_vec3", a.mul_vec3(v))?;
    print_float(out, "chord_length", a.chord_length())
}

fn print_matrix<W: Write>(out: &mut W, a: Quat, v: Vec3) -> io::Result<()> {
    let m = Mat3::from_quat(a);
    print_vector(out, "x_axis", m.x_axis)?;
    print_vector(out, "y_axis", m.y_axis)?;
    print_vector(out, "z_axis", m.z_axis)?;
    print_vector(out, "matrix_mul_vec3", m.mul_vec3(v))
}

fn print_relative<W: Write>(out: &mut W, a: Pose, b: Pose) -> io::Result<()> {
    let r = a.relative(b);
    print_vector(out, "position", r.position)?;
    print_quat(out, "rotation", r.rotation)
}

fn print_operands<W: Write>(out: &mut W, a: Quat, b: Quat, v: Vec3, u: Vec3) -> io::Result<()> {
    write!(out, "quats")?;
    write_quat(out, a)?;
    write_quat(out, b)?;
    write_vector(out, v)?;
    write_vector(out, u)?;
    writeln!(out)
}

pub fn print_case<W: Write>(out: &mut W, case: Case) -> io::Result<()> {
    let a = case.quat(1);
    let b = case.quat(10);
    let v = case.vector(5);
    let u = case.vector(14);
    print_operands(out, a, b, v, u)?;
    print_rotations(out, a, b, v)?;
    print_matrix(out, a, v)?;
    print_relative(
        out,
        Pose {
            position: v,
            rotation: a,
        },
        Pose {
            position: u,
            rotation: b,
        },
    )
}
