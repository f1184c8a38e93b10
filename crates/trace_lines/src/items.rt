// One value of a record: a field, fields that are present together, or a setting.
ghost use Rattle.std.specs.Prelude.{◌≡◌, true, [], ◌∷◌};
ghost use Rattle.trace_rules.specs.Fields.{plain, optional, setting, coefficient, dash_or, read_item};
ghost use Rattle.trace_lines.specs.Items.{kind_of, item_of};
ghost use Rattle.trace_lines.specs.Widths.{item_width};
ghost use Rattle.trace_lines.specs.Answers.{zero_behind, ValueReadAt};

use crate::fields::{Checked, dash_at, read_kind};
use crate::shapes::{Item, Kind};
use text::reader::byte_is;

// A value's words, of which the first are its item's.
type Value = Checked<[u32; 3]>;

// A mark alone, as a dash or the line's end is read.
fn marked(mark: u32, next: usize) -> Value
    ensures { result ≡ record { value = mark ∷ 0 ∷ 0 ∷ []; next = next; fits = true } }
{
    Checked {
        value: [mark, 0, 0],
        next,
        fits: true,
    }
}

#[tactic(auto, using(crate::specs::ItemLaws::plain_laws))]
fn read_plain(text: &[u8], at: usize, kind: Kind) -> Option<Value>
    ensures { ValueReadAt (read_item (plain (kind_of kind))) 1 text.now at result }
{
    let f = read_kind(text, at, kind)?;
    Some(f.with([f.value, 0, 0]))
}

// A mark and one word: 1 and the field, or, for a dash, the mark given and 0.
#[tactic(auto, using(crate::specs::ItemLaws::optional_laws))]
fn read_optional(text: &[u8], at: usize, kind: Kind, mark: u32) -> Option<Value>
    ensures { ValueReadAt (dash_or (zero_behind mark) (kind_of kind ∷ [])) 2 text.now at result }
{
    if dash_at(text, at) {
        return Some(marked(mark, at + 2));
    }
    let f = read_kind(text, at, kind)?;
    Some(f.with([1, f.value, 0]))
}

// A mark, the coefficient and its rule.
#[tactic(auto, using(crate::specs::ItemLaws::coefficient_laws))]
fn read_coefficient(text: &[u8], at: usize) -> Option<Value>
    ensures { ValueReadAt (read_item (optional coefficient)) 3 text.now at result }
{
    if dash_at(text, at) {
        return Some(marked(0, at + 2));
    }
    let f = read_kind(text, at, Kind::Float)?;
    let r = read_kind(text, f.next, Kind::Rule)?;
    Some(r.with([1, f.value, r.value]))
}

// A mark 1 and the setting: 0 for a dash, and where the line ends before it.
#[tactic(auto, using(crate::specs::ItemLaws::setting_laws))]
fn read_setting(text: &[u8], at: usize) -> Option<Value>
    ensures { ValueReadAt (read_item setting) 2 text.now at result }
{
    if byte_is(text, at, b'\n') {
        return Some(marked(1, at));
    }
    read_optional(text, at, Kind::Mark, 1)
}

#[tactic(auto, unfolding(trace_rules::specs::Fields::zeros_for, trace_rules::specs::Fields::read_item))]
pub fn read_item(text: &[u8], at: usize, item: Item) -> Option<Value>
    ensures { ValueReadAt (read_item (item_of item)) (item_width (item_of item)) text.now at result }
{
    match item {
        Item::Plain(kind) => read_plain(text, at, kind),
        Item::Optional(kind) => read_optional(text, at, kind, 0),
        Item::Coefficient => read_coefficient(text, at),
        Item::Setting => read_setting(text, at),
    }
}
