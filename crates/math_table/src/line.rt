// A line of the table: a name, then each word after a tab.
use math::bits::bits_of;
use math::quat::Quat;
use math::vec::Vec3;
use std::io;
use std::io::Write;

fn write_words<W: Write>(out: &mut W, words: &[u32]) -> io::Result<()> {
    for word in words {
        write!(out, "\t{word:08X}")?;
    }
    Ok(())
}

pub fn write_vector<W: Write>(out: &mut W, v: Vec3) -> io::Result<()> {
    write_words(out, &[bits_of(v.x), bits_of(v.y), bits_of(v.z)])
}

pub fn write_quat<W: Write>(out: &mut W, q: Quat) -> io::Result<()> {
    write_words(
        out,
        &[bits_of(q.x), bits_of(q.y), bits_of(q.z), bits_of(q.w)],
    )
}

pub fn print_line<W: Write>(out: &mut W, name: &str, words: &[u32]) -> io::Result<()> {
    write!(out, "{name}")?;
    write_words(out, words)?;
    writeln!(out)
}

pub fn print_float<W: Write>(out: &mut W, name: &str, x: f32) -> io::Result<()> {
    print_line(out, name, &[bits_of(x)])
}

pub fn print_vector<W: Write>(out: &mut W, name: &str, v: Vec3) -> io::Result<()> {
    write!(out, "{name}")?;
    write_vector(out, v)?;
    writeln!(out)
}

pub fn print_quat<W: Write>(out: &mut W, name: &str, q: Quat) -> io::Result<()> {
    write!(out, "{name}")?;
    write_quat(out, q)?;
    writeln!(out)
}
