// A line of a trace: its letter, its items in order, a line feed.
ghost use Rattle.std.specs.Prelude.{◌≡◌, ◌+◌, ◌≤◌, length, take};
ghost use Rattle.rows.specs.Rows.{put};
ghost use Rattle.trace_rules.specs.Fields.{read_items};
ghost use Rattle.trace_lines.specs.Items.{item_of, items_of};
ghost use Rattle.trace_lines.specs.Widths.{item_width, items_width};
ghost use Rattle.trace_lines.specs.Answers.{ItemsReadAt};
ghost use Rattle.trace_lines.specs.Promises.{LineReadAt};

use crate::fields::Checked;
use crate::items::read_item;
use crate::line_kind::LineKind;
use crate::shapes::Item;
use layout::body::BODY_SIZE;
use text::reader::expect;
use words::row::store_words;

// The words of the longest record, a body's.
pub const LINE_WORDS: usize = BODY_SIZE;

// The kind, the place after the line, and whether all numbers are in their ranges. No `Checked<LineKind>`: whoever reads a line asks for its `kind` by that name, and `value` says less.
#[derive(Clone, Copy, PartialEq, Eq, Debug)]
pub struct ReadLine {
    pub kind: LineKind,
    pub next: usize,
    pub fits: bool,
}

// An item's words. A copy of a fixed length for each width: of a length known only at run time it is a call of memmove and took half of the reading's time.
fn store_value(words: &mut [u32], n: usize, value: [u32; 3], item: Item)
    requires { n + item_width (item_of item) ≤ length words.old }
    ensures { words.new ≡ put words.old n (take (item_width (item_of item)) value) }
{
    match item {
        Item::Plain(_) => store_words(words, n, &value[..1]),
        Item::Optional(_) | Item::Setting => store_words(words, n, &value[..2]),
        Item::Coefficient => store_words(words, n, &value),
    }
}

// The items in turn; their words stand at the front of the row.
#[tactic(auto, using(crate::specs::LineLaws::items_laws))]
fn read_items(text: &[u8], at: usize, items: &[Item], words: &mut [u32]) -> Option<Checked<()>>
    requires { (at ≤ length text.now) × (items_width (items_of items.now) ≤ length words.old) }
    ensures { ItemsReadAt (read_items (items_of items.now)) text.now at words.old words.new result }
{
    let mut next = at;
    let mut n = 0;
    let mut fits = true;
    for item in items {
        let read = read_item(text, next, *item)?;
        store_value(words, n, read.value, *item);
        next = read.next;
        n += item.width();
        fits &= read.fits;
    }
    Some(Checked {
        value: (),
        next,
        fits,
    })
}

// The row takes the words of a line that is read; of one that is not it may hold the first.
#[tactic(auto, using(crate::specs::LineLaws::line_laws))]
pub fn read_line(text: &[u8], at: usize, words: &mut [u32; LINE_WORDS]) -> Option<ReadLine>
    ensures { LineReadAt text.now at words.old words.new result }
{
    let kind = LineKind::from_letter(*text.get(at)?)?;
    let e = read_items(text, at + 1, kind.items(), words)?;
    let next = expect(text, e.next, b'\n')?;
    Some(ReadLine {
        kind,
        next,
        fits: e.fits,
    })
}
