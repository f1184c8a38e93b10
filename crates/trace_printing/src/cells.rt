// A printed line's cells.
ghost use Rattle.std.specs.Prelude.{◌≡◌, ◌+◌, ◌*◌, ◌<◌, length, map};
ghost use Rattle.text.specs.Text.{last_place, Written};
ghost use Rattle.trace_rules.specs.Printed.{cell_text, printed_line, refused_text};
ghost use Rattle.trace_printing.specs.Cells.{cell_of};
ghost use Rattle.trace_printing.specs.Lines.{cell_room};

use text::writer::Writer;

#[derive(Clone, Copy, PartialEq, Eq, Debug)]
pub enum Cell {
    Number(u32),
    Negative(u32),
    Absent,
}

fn write_cell(line: &mut Writer<'_>, cell: Cell)
    requires { line.old.at + cell_room < last_place }
    ensures lent { line.new.row.ghost_name ≡ line.old.row.ghost_name }
    ensures written { Written line.old.row.now line.old.at (cell_text (cell_of cell)) line.new.row.now line.new.at }
{
    line.write_byte(b'\t');
    match cell {
        Cell::Number(n) => line.write_decimal(n),
        Cell::Negative(n) => {
            line.write_byte(b'-');
            line.write_decimal(n);
        }
        Cell::Absent => line.write_byte(b'-'),
    }
}

// A line: its letter, its cells and its end.
pub fn write_line(lines: &mut Writer<'_>, letter: u8, cells: &[Cell])
    requires { lines.old.at + (length cells.now * cell_room + 2) < last_place }
    ensures lent { lines.new.row.ghost_name ≡ lines.old.row.ghost_name }
    ensures written { Written lines.old.row.now lines.old.at (printed_line letter (map cell_of cells.now)) lines.new.row.now lines.new.at }
{
    lines.write_byte(letter);
    for cell in cells {
        write_cell(lines, *cell);
    }
    lines.write_byte(b'\n');
}

// A refusal's number alone.
pub fn write_refused(out: &mut [u8], at: usize, n: u32) -> usize
    requires { at + 11 < last_place }
    ensures { Written out.old at (refused_text n) out.new result }
{
    let mut line = Writer::new(out, at);
    line.write_decimal(n);
    line.write_byte(b'\n');
    line.place()
}
