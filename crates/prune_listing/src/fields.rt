// Fields and line ends of a text, by their place. A place past the end is taken: nothing is read there.
ghost use Rattle.std.specs.Prelude.{◌≡◌, ◌+◌, drop};
ghost use Rattle.text.specs.Answers.{taken_word};
ghost use Rattle.prune_listing.specs.Listing.{field, line_end};
ghost use Rattle.prune_listing.specs.Answers.{taken_end};

use text::reader::{expect, read_word};

// The bytes of a tab and a word.
pub const FIELD: usize = 9;

// A tab and a word.
#[tactic(auto, using(crate::specs::WordLaws::field_laws))]
pub fn read_field(text: &[u8], at: usize) -> Option<u32>
    ensures { field (drop at text.now) ≡ taken_word result (drop (at + 9) text.now) }
{
    let word = expect(text, at, b'\t')?;
    read_word(text, word)
}

// Whether a line ends there: at a line feed, or with the text.
#[tactic(auto, using(crate::specs::WordLaws::end_laws))]
pub fn line_ends(text: &[u8], at: usize) -> bool
    ensures { line_end (drop at text.now) ≡ taken_end result (drop (at + 1) text.now) }
{
    text.get(at).is_none_or(|b| *b == b'\n')
}
