// A line of a listing, by its place.
ghost use Rattle.std.specs.Prelude.{◌≡◌, ◌+◌, ◌*◌, ◌≤◌, ◌<◌, drop};
ghost use Rattle.text.specs.Text.{last_place};
ghost use Rattle.layout.specs.Prune.{prune_point_size};
ghost use Rattle.prune_listing.specs.Listing.{fields, line};
ghost use Rattle.prune_listing.specs.Answers.{line_bytes, taken_words};

use crate::fields::{FIELD, line_ends, read_field};
use text::reader::expect;

// N fields, nine bytes each.
#[tactic(auto, using(crate::specs::LineLaws::field_laws))]
fn read_fields<const N: usize>(text: &[u8], at: usize) -> Option<[u32; N]>
    requires place { at ≤ last_place }
    requires few { N ≤ prune_point_size }
    ensures { fields N (drop at text.now) ≡ taken_words result (drop (at + 9 * N) text.now) }
{
    let mut words = [0; N];
    for k in 0..N {
        words[k] = read_field(text, at + FIELD * k)?;
    }
    Some(words)
}

// A letter, N fields, the end of the line.
#[tactic(auto, using(crate::specs::LineLaws::line_laws))]
pub fn read_line<const N: usize>(text: &[u8], at: usize, letter: u8) -> Option<[u32; N]>
    requires place { at < last_place }
    requires few { N ≤ prune_point_size }
    ensures { line letter N (drop at text.now) ≡ taken_words result (drop (at + line_bytes N) text.now) }
{
    let start = expect(text, at, letter)?;
    let words = read_fields::<N>(text, start)?;
    line_ends(text, start + FIELD * N).then_some(words)
}
