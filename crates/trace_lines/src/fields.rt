// One field of a line: a tab, then a word or a number.
ghost use Rattle.std.specs.Prelude.{◌≡◌};
ghost use Rattle.trace_rules.specs.Fields.{kind_fits};
ghost use Rattle.trace_lines.specs.Items.{kind_of};
ghost use Rattle.trace_lines.specs.Answers.{FieldReadAt, DashReadAt};

use crate::shapes::Kind;
use layout::limits::{BODIES, COLLIDERS};
use text::reader::{byte_is, expect, read_decimal, read_word};

// What was read, the place after it, and whether all its numbers are in their ranges.
#[derive(Clone, Copy, PartialEq, Eq, Debug)]
pub struct Checked<T> {
    pub value: T,
    pub next: usize,
    pub fits: bool,
}

impl<T: Copy> Checked<T> {
    // Another value that is read to the same place.
    pub fn with<U>(self, value: U) -> Checked<U>
        ensures { (result.value ≡ value) × (result.next ≡ self.next) × (result.fits ≡ self.fits) }
    {
        Checked {
            value,
            next: self.next,
            fits: self.fits,
        }
    }
}

impl Kind {
    // Whether a value is in its range.
    #[tactic(auto, unfolding(trace_rules::specs::Fields::kind_fits))]
    fn fits(self, v: u32) -> bool
        ensures { result ≡ kind_fits (kind_of self) v }
    {
        match self {
            Kind::Float | Kind::Number => true,
            Kind::Collider => v < COLLIDERS,
            Kind::Body => v < BODIES,
            Kind::Mark => v < 2,
            Kind::Rule => 0 < v && v <= 5,
        }
    }
}

#[tactic(auto, using(crate::specs::FieldLaws::kind_laws))]
pub fn read_kind(text: &[u8], at: usize, kind: Kind) -> Option<Checked<u32>>
    ensures { FieldReadAt (kind_of kind) text.now at result }
{
    let start = expect(text, at, b'\t')?;
    if let Kind::Float = kind {
        let value = read_word(text, start)?;
        return Some(Checked {
            value,
            next: start + 8,
            fits: true,
        });
    }
    let number = read_decimal(text, start)?;
    Some(Checked {
        value: number.value,
        next: number.next,
        fits: kind.fits(number.value),
    })
}

// A tab and a dash.
#[tactic(auto, using(crate::specs::FieldLaws::dash_laws))]
pub fn dash_at(text: &[u8], at: usize) -> bool
    ensures { DashReadAt text.now at result }
{
    byte_is(text, at, b'\t') && byte_is(text, at + 1, b'-')
}
