// The lines of a step's events and changes, from the words of their rows.
ghost use Rattle.std.specs.Prelude.{◌≡◌, cond, ◌+◌, ◌*◌, ◌≤◌, ◌<◌, eqb, length};
ghost use Rattle.rows.specs.Rows.{each};
ghost use Rattle.layout.specs.Change.{change_size};
ghost use Rattle.layout.specs.Event.{event_size};
ghost use Rattle.contact_records.specs.Recorded.{int_of};
ghost use Rattle.step.specs.Read.{event_at, change_at};
ghost use Rattle.text.specs.Text.{last_place, Written};
ghost use Rattle.trace_rules.specs.Printed.{optional_cell, signed_cell, event_text, change_text, step_text};
ghost use Rattle.trace_printing.specs.Cells.{cell_of};
ghost use Rattle.status_pass.specs.Listed.{event_number};
ghost use Rattle.trace_printing.specs.Lines.{event_room, change_room, events_in, changes_in, ChangeNumbered};

use crate::cells::{Cell, write_line};
use layout::change::{CHANGE_BODY1, CHANGE_BODY2, CHANGE_CONTACT, CHANGE_COUNT, CHANGE_SIZE};
use layout::event::{
    EVENT_BODY1, EVENT_BODY2, EVENT_COLLIDER1, EVENT_COLLIDER2, EVENT_CONTACT, EVENT_SIZE,
};
use status_pass::changes::ContactStatusChange;
use status_pass::events::EventKind;
use text::writer::Writer;
use words::load::load;

// A cell is a tab, a sign and ten digits at most.
const CELL_ROOM: usize = 12;

// Six cells and five, between a letter and the line's end.
const EVENT_ROOM: usize = 6 * CELL_ROOM + 2;

const CHANGE_ROOM: usize = 5 * CELL_ROOM + 2;

// A contact's share of the row for what is printed: the lines of an event and of a change.
pub const PRINTED_SIZE: usize = EVENT_ROOM + CHANGE_ROOM;

fn optional_cell(n: Option<u32>) -> Cell
    ensures { cell_of result ≡ optional_cell n }
{
    n.map_or(Cell::Absent, |n| Cell::Number(n))
}

// A number in two's complement.
fn signed_cell(w: u32) -> Cell
    ensures { cell_of result ≡ signed_cell (int_of w) }
{
    let n = w.cast_signed();
    if n < 0 {
        return Cell::Negative(n.unsigned_abs());
    }
    Cell::Number(w)
}

// A number that is not a start's is an end's.
fn event_kind(w: u32) -> EventKind
    ensures { event_number result ≡ cond (eqb w 0) 0 1 }
{
    if w == EventKind::Started as u32 {
        return EventKind::Started;
    }
    EventKind::Ended
}

fn write_event(events: &[u32], at: usize, lines: &mut Writer<'_>)
    requires { (at + event_size ≤ length events.now) × (lines.old.at + event_room < last_place) }
    ensures lent { lines.new.row.ghost_name ≡ lines.old.row.ghost_name }
    ensures written { Written lines.old.row.now lines.old.at (event_text (event_at events.now at)) lines.new.row.now lines.new.at }
{
    let kind = event_kind(load(events, at));
    let contact = load::<u32>(events, at + EVENT_CONTACT);
    let collider1 = load::<u32>(events, at + EVENT_COLLIDER1);
    let collider2 = load::<u32>(events, at + EVENT_COLLIDER2);
    let body1 = load::<Option<u32>>(events, at + EVENT_BODY1);
    let body2 = load::<Option<u32>>(events, at + EVENT_BODY2);
    let cells = [
        Cell::Number(kind as u32),
        Cell::Number(contact),
        Cell::Number(collider1),
        Cell::Number(collider2),
        optional_cell(body1),
        optional_cell(body2),
    ];
    write_line(lines, b'E', &cells);
}

// A number that is neither a start's nor a stop's is a count change's.
fn change_kind(w: u32) -> ContactStatusChange
    ensures { ChangeNumbered w result }
{
    if w == ContactStatusChange::StartedGeneratingConstraints as u32 {
        return ContactStatusChange::StartedGeneratingConstraints;
    }
    if w == ContactStatusChange::StoppedGeneratingConstraints as u32 {
        return ContactStatusChange::StoppedGeneratingConstraints;
    }
    ContactStatusChange::ManifoldCountChanged
}

fn write_change(changes: &[u32], at: usize, lines: &mut Writer<'_>)
    requires { (at + change_size ≤ length changes.now) × (lines.old.at + change_room < last_place) }
    ensures lent { lines.new.row.ghost_name ≡ lines.old.row.ghost_name }
    ensures written { Written lines.old.row.now lines.old.at (change_text (change_at changes.now at)) lines.new.row.now lines.new.at }
{
    let kind = change_kind(load(changes, at));
    let contact = load::<u32>(changes, at + CHANGE_CONTACT);
    let body1 = load::<u32>(changes, at + CHANGE_BODY1);
    let body2 = load::<u32>(changes, at + CHANGE_BODY2);
    let count = load::<u32>(changes, at + CHANGE_COUNT);
    let cells = match kind {
        ContactStatusChange::StartedGeneratingConstraints => [
            Cell::Number(kind as u32),
            Cell::Number(contact),
            Cell::Absent,
            Cell::Absent,
            Cell::Absent,
        ],
        ContactStatusChange::StoppedGeneratingConstraints => [
            Cell::Number(kind as u32),
            Cell::Number(contact),
            Cell::Number(body1),
            Cell::Number(body2),
            Cell::Absent,
        ],
        ContactStatusChange::ManifoldCountChanged => [
            Cell::Number(kind as u32),
            Cell::Number(contact),
            Cell::Number(body1),
            Cell::Number(body2),
            signed_cell(count),
        ],
    };
    write_line(lines, b'S', &cells);
}

// One function over events and changes, with a closure for a record's cells, was tried: the borrow checker does not cover `Fn(usize) -> [Cell; N]`, a bound that names a const parameter, so its whole proof stays open.
fn write_events(events: &[u32], count: usize, lines: &mut Writer<'_>)
    requires { (count * event_size ≤ length events.now) × (lines.old.at + count * event_room < last_place) }
    ensures lent { lines.new.row.ghost_name ≡ lines.old.row.ghost_name }
    ensures written { Written lines.old.row.now lines.old.at (each event_text (events_in events.now count)) lines.new.row.now lines.new.at }
{
    for k in 0..count {
        write_event(events, k * EVENT_SIZE, lines);
    }
}

fn write_changes(changes: &[u32], count: usize, lines: &mut Writer<'_>)
    requires { (count * change_size ≤ length changes.now) × (lines.old.at + count * change_room < last_place) }
    ensures lent { lines.new.row.ghost_name ≡ lines.old.row.ghost_name }
    ensures written { Written lines.old.row.now lines.old.at (each change_text (changes_in changes.now count)) lines.new.row.now lines.new.at }
{
    for k in 0..count {
        write_change(changes, k * CHANGE_SIZE, lines);
    }
}

// Events, then changes, from the row's start on. Rows with counts, as a step's report gives them: a slice of what is written would be divided into records again.
pub fn write_step(events: &[u32], n: usize, changes: &[u32], m: usize, out: &mut [u8]) -> usize
    requires { (n * event_size ≤ length events.now) × (m * change_size ≤ length changes.now) × (n < 4294967296) × (m < 4294967296) }
    ensures { Written out.old 0 (step_text (events_in events.now n) (changes_in changes.now m)) out.new result }
{
    let mut lines = Writer::new(out, 0);
    write_events(events, n, &mut lines);
    write_changes(changes, m, &mut lines);
    lines.place()
}
