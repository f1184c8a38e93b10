// The settings, colliders and bodies of a step, from the lines of a stretch of text: the last line of one number counts.
ghost use Rattle.std.specs.Prelude.{◌≡◌, ◌*◌, ◌≤◌, ◌<◌, length};
ghost use Rattle.layout.specs.Body.{bodies_length};
ghost use Rattle.layout.specs.Collider.{colliders_length};
ghost use Rattle.layout.specs.Settings.{settings_length};
ghost use Rattle.manifold_records.specs.Written.{zeros};
ghost use Rattle.trace_lines.specs.Items.{letter_of};
ghost use Rattle.trace_steps.specs.Lines.{record_stored, RowsTaken};
ghost use Rattle.trace_steps.specs.Promises.{RowsFilled};
ghost use Rattle.trace_steps.specs.Stretch.{lines_of};

use crate::row::store_part;
use crate::stretch::Stretch;
use contact_graph::lay_out::clear;
use layout::body::BODY_SIZE;
use layout::collider::COLLIDER_SIZE;
use layout::limits::{BODIES, COLLIDERS};
use layout::settings::SETTINGS_LENGTH;
use trace_lines::line::LINE_WORDS;
use trace_lines::line_kind::LineKind;
use words::load::load;

// The record that the line's first word numbers, where there is one: a presence mark and the line's other words.
#[tactic(auto, using(crate::specs::CodeLaws::record_none, crate::specs::CodeLaws::record_stored_lem))]
fn store_record(words: &[u32], row: &mut [u32], count: usize, size: usize)
    requires { (length row.old ≡ count * size) × (0 < size) × (size ≤ length words.now) }
    ensures { row.new ≡ record_stored count size words.now row.old }
{
    let n = load::<usize>(words, 0);
    if n >= count {
        return;
    }
    let at = n * size;
    row[at] = 1;
    store_part(row, at + 1, words, 1, size - 1);
}

// One line: settings, a collider, a body, or another that changes nothing here.
#[tactic(auto, unfolding(crate::specs::Lines::settings_taken))]
fn take_line(
    kind: LineKind,
    words: &[u32; LINE_WORDS],
    settings: &mut [u32],
    colliders: &mut [u32],
    bodies: &mut [u32],
)
    requires { (length settings.old ≡ settings_length) × (length colliders.old ≡ colliders_length) × (length bodies.old ≡ bodies_length) }
    ensures { RowsTaken (letter_of kind) words.now settings.old colliders.old bodies.old settings.new colliders.new bodies.new }
{
    match kind {
        LineKind::Settings => store_part(settings, 0, words, 0, SETTINGS_LENGTH),
        LineKind::Collider => store_record(words, colliders, COLLIDERS as usize, COLLIDER_SIZE),
        LineKind::Body => store_record(words, bodies, BODIES as usize, BODY_SIZE),
        _ => {}
    }
}

// The lines of a stretch, into cleared rows.
fn read_rows(stretch: Stretch<'_>, settings: &mut [u32], colliders: &mut [u32], bodies: &mut [u32])
    requires { (settings.old ≡ zeros settings_length) × (colliders.old ≡ zeros colliders_length) × (bodies.old ≡ zeros bodies_length) }
    ensures { RowsFilled (lines_of stretch.entry) settings.new colliders.new bodies.new }
{
    let mut lines = stretch.lines();
    while let Some(kind) = lines.next() {
        take_line(kind, &lines.words, settings, colliders, bodies);
    }
}

// Every word of the rows: zeros for what no line gives.
pub fn fill_rows(
    stretch: Stretch<'_>,
    settings: &mut [u32],
    colliders: &mut [u32],
    bodies: &mut [u32],
)
    requires { (length settings.old ≡ settings_length) × (length colliders.old ≡ colliders_length) × (length bodies.old ≡ bodies_length) }
    ensures { RowsFilled (lines_of stretch.entry) settings.new colliders.new bodies.new }
{
    clear(settings);
    clear(colliders);
    clear(bodies);
    read_rows(stretch, settings, colliders, bodies);
}
