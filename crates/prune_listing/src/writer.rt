// The lines of the answer: K and a kept number, or R and a refusal's.
ghost use Rattle.std.specs.Prelude.{◌+◌, ◌≤◌, ◌<◌, length};
ghost use Rattle.prune_listing.specs.Lines.{number_line, kept_line, refused_line};
ghost use Rattle.text.specs.Text.{Written};

use text::writer::Writer;

// A letter, a tab, the number, a line feed, at a row's front: apart from the next, since of a `Writer` over a part of a row no proof closed that says what the row holds afterwards. The result is the place after them, as it is of each function here.
fn write_front(out: &mut [u8], letter: u8, n: u32) -> usize
    requires { n < 1000 }
    ensures { Written out.old 0 (number_line letter n) out.new result }
{
    let mut line = Writer::new(out, 0);
    line.write_bytes(&[letter, b'\t']);
    line.write_decimal(n);
    line.write_byte(b'\n');
    line.place()
}

fn write_number(out: &mut [u8], at: usize, letter: u8, n: u32) -> usize
    requires { (n < 1000) × (at + 6 ≤ length out.old) }
    ensures { Written out.old at (number_line letter n) out.new result }
{
    at + write_front(&mut out[at..], letter, n)
}

pub fn write_kept(out: &mut [u8], at: usize, index: u32) -> usize
    requires { (index < 1000) × (at + 6 ≤ length out.old) }
    ensures { Written out.old at (kept_line index) out.new result }
{
    write_number(out, at, b'K', index)
}

pub fn write_refused(out: &mut [u8], at: usize, number: u32) -> usize
    requires { (number < 1000) × (at + 6 ≤ length out.old) }
    ensures { Written out.old at (refused_line number) out.new result }
{
    write_number(out, at, b'R', number)
}
